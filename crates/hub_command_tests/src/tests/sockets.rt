//! The rule for the socket of words that name none.
use hub_arguments::{OwnSocket, derived_socket};
use std::alloc::Global;
use std::env::VarError;
use std::test::Fail;

/// What is found under a name of the environment.
#[derive(Clone, Copy, Debug)]
enum Found {
    Nothing,
    NoText,
    NoMemory,
    Text(&'static str),
}

use Found::{NoMemory, NoText, Nothing, Text};

/// What `FTRIGHUB_SOCKET` and `XDG_RUNTIME_DIR` have, and the socket of root (0) and of another user.
static RULE: [(Found, Found, &str, &str); 31] = [
    (Nothing, Nothing, "root", "none"),
    (Nothing, NoText, "root", "none"),
    (Nothing, NoMemory, "root", "no memory"),
    (Nothing, Text(""), "root", "none"),
    (Nothing, Text("u/run"), "root", "none"),
    (Nothing, Text("./run"), "root", "none"),
    (Nothing, Text("~/run"), "root", "none"),
    (Nothing, Text("/"), "root", "user //ftrighub.socket"),
    (Nothing, Text("/u"), "root", "user /u/ftrighub.socket"),
    (Nothing, Text("/u/"), "root", "user /u//ftrighub.socket"),
    (Nothing, Text("/é ~"), "root", "user /é ~/ftrighub.socket"),
    (Text(""), Nothing, "root", "none"),
    (Text(""), NoText, "root", "none"),
    (Text(""), NoMemory, "root", "no memory"),
    (Text(""), Text(""), "root", "none"),
    (Text(""), Text("run"), "root", "none"),
    (Text(""), Text("/u"), "root", "user /u/ftrighub.socket"),
    (NoText, Nothing, "root", "none"),
    (NoText, NoText, "root", "none"),
    (NoText, NoMemory, "root", "no memory"),
    (NoText, Text(""), "root", "none"),
    (NoText, Text("run"), "root", "none"),
    (NoText, Text("/u"), "root", "user /u/ftrighub.socket"),
    (Text("hub"), Nothing, "named hub", "named hub"),
    (Text("hub"), NoText, "named hub", "named hub"),
    (Text("/a b"), NoMemory, "named /a b", "named /a b"),
    (Text("é"), Text(""), "named é", "named é"),
    (Text(" "), Text("run"), "named  ", "named  "),
    (
        Text("/run/ftrighub/hub.socket"),
        Text("/u"),
        "named /run/ftrighub/hub.socket",
        "named /run/ftrighub/hub.socket",
    ),
    (NoMemory, Nothing, "no memory", "no memory"),
    (NoMemory, Text("/u"), "no memory", "no memory"),
];

fn text_of(alloc: Global, it: Found) -> Result<String, VarError> {
    match it {
        Found::Nothing => Err(VarError::NotPresent),
        Found::NoText => Err(VarError::NotUnicode),
        Found::NoMemory => Err(VarError::OutOfMemory),
        Found::Text(text) => Ok(String::from_str(alloc, text)?),
    }
}

fn socket_of(alloc: Global, named: Found, user: u32, folder: Found) -> Result<String, Fail> {
    use OwnSocket::{Named, OfRoot, OfUser};

    let own = derived_socket(alloc, text_of(alloc, named), user, text_of(alloc, folder));
    let text = match own {
        Ok(Some(Named(path))) => format!(in alloc; "named {path}")?,
        Ok(Some(OfRoot)) => String::from_str(alloc, "root")?,
        Ok(Some(OfUser(path))) => format!(in alloc; "user {path}")?,
        Ok(None) => String::from_str(alloc, "none")?,
        Err(_) => String::from_str(alloc, "no memory")?,
    };
    Ok(text)
}

#[test]
fn rule(rt: HostRuntime) -> Result<(), Fail> {
    for (named, folder, root, other) in &RULE {
        for (user, wanted) in [(0, *root), (1, *other), (1_000, *other), (u32::MAX, *other)] {
            let socket = socket_of(rt.alloc(), *named, user, *folder)?;
            assert_eq!(rt;
                socket.as_str(),
                wanted,
                "of {user} at {named:?} and {folder:?}"
            );
        }
    }
    Ok(())
}
