//! The lines of a hub's log about its fifodirs.
use hub_endings::{Trouble, TroubleAt};
use hub_fakes::Narrow;
use std::test::Fail;

/// A fifodir's name, its trouble, and the line.
static ROWS: [(&str, Trouble, &str); 6] = [
    (
        "web",
        Trouble::Refused { pending: 64 },
        "ftrighub: web: a publisher was refused as full, the slowest subscription is 64 events behind\n",
    ),
    (
        "web",
        Trouble::Evicted { limit: 64 },
        "ftrighub: web: a subscription was evicted, more than 64 events behind\n",
    ),
    (
        "db",
        Trouble::Will { pending: 3 },
        "ftrighub: db: a will was not carried out, the slowest subscription is 3 events behind; \
         end its client, then tell db its state\n",
    ),
    (
        "-",
        Trouble::Refused { pending: 0 },
        "ftrighub: -: a publisher was refused as full, the slowest subscription is 0 events behind\n",
    ),
    (
        "Z.z_0-9",
        Trouble::Evicted { limit: 4_096 },
        "ftrighub: Z.z_0-9: a subscription was evicted, more than 4096 events behind\n",
    ),
    (
        "abcdefghijklmnopqrstuvwxyz012345",
        Trouble::Refused {
            pending: 18_446_744_073_709_551_615,
        },
        "ftrighub: abcdefghijklmnopqrstuvwxyz012345: a publisher was refused as full, \
         the slowest subscription is 18446744073709551615 events behind\n",
    ),
];

#[test]
fn each_trouble_has_its_line(rt: HostRuntime) -> Result<(), Fail> {
    for (name, trouble, line) in &ROWS {
        let said = TroubleAt {
            name,
            trouble: *trouble,
        };
        let mut told: Vec<u8> = Vec::new(rt.alloc());
        assert!(rt; said.tell(rt.alloc(), &mut told).is_ok());
        assert_eq!(rt; told.as_slice(), line.as_bytes());
        let mut counted = Narrow::new(1_000, 0);
        assert!(rt; said.tell(rt.alloc(), &mut counted).is_ok());
        assert_eq!(rt; counted.writes, 1, "{line}");
    }
    Ok(())
}
