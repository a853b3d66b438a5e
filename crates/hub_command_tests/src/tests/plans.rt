//! The plans of command lines.

/// The plans of root, if the environment has no socket.
pub static ROOT_PLANS: [(&str, &str); 6] = [
    (
        "ftrighub serve --forever --mode 0660",
        "ServeForever(HubOptions { socket: \"/run/ftrighub/hub.socket\", makes_folder: true, sessions: 64, mode: Some(432), ready: None, idle: None, setup: None, look: None, names: 256 })",
    ),
    (
        "ftrighub serve /run/ftrighub/hub.socket --forever",
        "ServeForever(HubOptions { socket: \"/run/ftrighub/hub.socket\", makes_folder: false, sessions: 64, mode: None, ready: None, idle: None, setup: None, look: None, names: 256 })",
    ),
    (
        "ftrighub serve --forever --look /run/ftrighub/look.socket",
        "ServeForever(HubOptions { socket: \"/run/ftrighub/hub.socket\", makes_folder: true, sessions: 64, mode: None, ready: None, idle: None, setup: None, look: Some(LookOptions { socket: \"/run/ftrighub/look.socket\", mode: 438 }), names: 256 })",
    ),
    ("ftrighub serve s", "Serve { socket: \"s\", sessions: 1 }"),
    (
        "ftrighub call",
        "Call { socket: \"/run/ftrighub/hub.socket\" }",
    ),
    (
        "ftrighub status",
        "Status { socket: \"/run/ftrighub/hub.socket\", names: [], is_json: false }",
    ),
];

/// The plans of these words, and of these beside a socket that the environment has.
pub static PLANS: [(&str, Option<&str>, &str); 56] = [
    ("ftrighub script", None, "Script"),
    (
        "ftrighub serve /run/hub.sock",
        None,
        "Serve { socket: \"/run/hub.sock\", sessions: 1 }",
    ),
    (
        "ftrighub serve --sessions 64 hub",
        Some("t"),
        "Serve { socket: \"hub\", sessions: 64 }",
    ),
    (
        "ftrighub serve --forever hub",
        None,
        "ServeForever(HubOptions { socket: \"hub\", makes_folder: false, sessions: 64, mode: None, ready: None, idle: None, setup: None, look: None, names: 256 })",
    ),
    (
        "ftrighub serve hub --ready-fd 3 --mode 0660 --idle 1000000 --setup s --sessions 1024 --forever",
        None,
        "ServeForever(HubOptions { socket: \"hub\", makes_folder: false, sessions: 1024, mode: Some(432), ready: Some(3), idle: Some(1000000), setup: Some(\"s\"), look: None, names: 256 })",
    ),
    (
        "ftrighub serve --forever",
        Some("t"),
        "ServeForever(HubOptions { socket: \"t\", makes_folder: false, sessions: 64, mode: None, ready: None, idle: None, setup: None, look: None, names: 256 })",
    ),
    (
        "ftrighub serve --forever hub",
        Some("t"),
        "ServeForever(HubOptions { socket: \"hub\", makes_folder: false, sessions: 64, mode: None, ready: None, idle: None, setup: None, look: None, names: 256 })",
    ),
    (
        "ftrighub serve hub --forever --look l",
        None,
        "ServeForever(HubOptions { socket: \"hub\", makes_folder: false, sessions: 64, mode: None, ready: None, idle: None, setup: None, look: Some(LookOptions { socket: \"l\", mode: 438 }), names: 256 })",
    ),
    (
        "ftrighub serve --look-mode 0600 hub --look l --mode 0660 --sessions 2 --forever --names-per-session 1",
        None,
        "ServeForever(HubOptions { socket: \"hub\", makes_folder: false, sessions: 2, mode: Some(432), ready: None, idle: None, setup: None, look: Some(LookOptions { socket: \"l\", mode: 384 }), names: 1 })",
    ),
    (
        "ftrighub serve --forever --look l --look-mode 0620 --names-per-session 256",
        Some("t"),
        "ServeForever(HubOptions { socket: \"t\", makes_folder: false, sessions: 64, mode: None, ready: None, idle: None, setup: None, look: Some(LookOptions { socket: \"l\", mode: 400 }), names: 256 })",
    ),
    (
        "ftrighub serve s --forever --look l --look-mode 0622",
        None,
        "ServeForever(HubOptions { socket: \"s\", makes_folder: false, sessions: 64, mode: None, ready: None, idle: None, setup: None, look: Some(LookOptions { socket: \"l\", mode: 402 }), names: 256 })",
    ),
    (
        "ftrighub serve s --forever --look l --look-mode 0660",
        None,
        "ServeForever(HubOptions { socket: \"s\", makes_folder: false, sessions: 64, mode: None, ready: None, idle: None, setup: None, look: Some(LookOptions { socket: \"l\", mode: 432 }), names: 256 })",
    ),
    (
        "ftrighub serve s --forever --look l --look-mode 0666",
        None,
        "ServeForever(HubOptions { socket: \"s\", makes_folder: false, sessions: 64, mode: None, ready: None, idle: None, setup: None, look: Some(LookOptions { socket: \"l\", mode: 438 }), names: 256 })",
    ),
    (
        "ftrighub serve s --forever --names-per-session 2 --sessions 1",
        None,
        "ServeForever(HubOptions { socket: \"s\", makes_folder: false, sessions: 1, mode: None, ready: None, idle: None, setup: None, look: None, names: 2 })",
    ),
    ("ftrighub call hub", Some("t"), "Call { socket: \"hub\" }"),
    ("ftrighub call", Some("t"), "Call { socket: \"t\" }"),
    (
        "ftrighub ask --socket s names 0",
        None,
        "Ask { socket: \"s\", words: [\"names\", \"0\"] }",
    ),
    (
        "ftrighub ask names 0",
        Some("t"),
        "Ask { socket: \"t\", words: [\"names\", \"0\"] }",
    ),
    (
        "ftrighub ask --socket s names 0",
        Some("t"),
        "Ask { socket: \"s\", words: [\"names\", \"0\"] }",
    ),
    (
        "ftrighub ask pub web --socket",
        Some("t"),
        "Ask { socket: \"t\", words: [\"pub\", \"web\", \"--socket\"] }",
    ),
    (
        "ftrighub ask -- --socket s",
        Some("t"),
        "Ask { socket: \"t\", words: [\"--socket\", \"s\"] }",
    ),
    (
        "ftrighub wait any ready --for 2m db web",
        Some("t"),
        "Wait { socket: \"t\", wish: Wish { span: \"any\", want: \"ready\", timeout: Some(\"2m\"), is_now: false, is_quiet: false, names: [\"db\", \"web\"] } }",
    ),
    (
        "ftrighub wait --for 5s all restarted db",
        Some("t"),
        "Wait { socket: \"t\", wish: Wish { span: \"all\", want: \"restarted\", timeout: Some(\"5s\"), is_now: false, is_quiet: false, names: [\"db\"] } }",
    ),
    (
        "ftrighub wait any --for 2m --socket s ready db web",
        Some("t"),
        "Wait { socket: \"s\", wish: Wish { span: \"any\", want: \"ready\", timeout: Some(\"2m\"), is_now: false, is_quiet: false, names: [\"db\", \"web\"] } }",
    ),
    (
        "ftrighub wait ready db",
        Some("t"),
        "Wait { socket: \"t\", wish: Wish { span: \"all\", want: \"ready\", timeout: None, is_now: false, is_quiet: false, names: [\"db\"] } }",
    ),
    (
        "ftrighub wait restarted-ready --timeout=0.5s db web",
        Some("t"),
        "Wait { socket: \"t\", wish: Wish { span: \"all\", want: \"restarted-ready\", timeout: Some(\"0.5s\"), is_now: false, is_quiet: false, names: [\"db\", \"web\"] } }",
    ),
    (
        "ftrighub wait finished db --now web --timeout 90 -q log",
        Some("t"),
        "Wait { socket: \"t\", wish: Wish { span: \"all\", want: \"finished\", timeout: Some(\"90\"), is_now: true, is_quiet: true, names: [\"db\", \"web\", \"log\"] } }",
    ),
    (
        "ftrighub wait --quiet any down all any",
        Some("t"),
        "Wait { socket: \"t\", wish: Wish { span: \"any\", want: \"down\", timeout: None, is_now: false, is_quiet: true, names: [\"all\", \"any\"] } }",
    ),
    (
        "ftrighub wait up all",
        Some("t"),
        "Wait { socket: \"t\", wish: Wish { span: \"all\", want: \"up\", timeout: None, is_now: false, is_quiet: false, names: [\"all\"] } }",
    ),
    (
        "ftrighub wait all up up",
        Some("t"),
        "Wait { socket: \"t\", wish: Wish { span: \"all\", want: \"up\", timeout: None, is_now: false, is_quiet: false, names: [\"up\"] } }",
    ),
    (
        "ftrighub wait up -- --now",
        Some("t"),
        "Wait { socket: \"t\", wish: Wish { span: \"all\", want: \"up\", timeout: None, is_now: false, is_quiet: false, names: [\"--now\"] } }",
    ),
    (
        "ftrighub status",
        Some("t"),
        "Status { socket: \"t\", names: [], is_json: false }",
    ),
    (
        "ftrighub status db --socket s web",
        Some("t"),
        "Status { socket: \"s\", names: [\"db\", \"web\"], is_json: false }",
    ),
    (
        "ftrighub status db --json",
        Some("t"),
        "Status { socket: \"t\", names: [\"db\"], is_json: true }",
    ),
    (
        "ftrighub follow db",
        Some("t"),
        "Follow { socket: \"t\", follow: Follow { names: [\"db\"], pattern: None, is_plain: false, is_json: false, is_once: false, timeout: None, is_patient: false } }",
    ),
    (
        "ftrighub follow --once web --pattern ^u$ db --plain",
        Some("t"),
        "Follow { socket: \"t\", follow: Follow { names: [\"web\", \"db\"], pattern: Some(\"^u$\"), is_plain: true, is_json: false, is_once: true, timeout: None, is_patient: false } }",
    ),
    (
        "ftrighub follow --json db",
        Some("t"),
        "Follow { socket: \"t\", follow: Follow { names: [\"db\"], pattern: None, is_plain: false, is_json: true, is_once: false, timeout: None, is_patient: false } }",
    ),
    (
        "ftrighub follow db --timeout 5s",
        Some("t"),
        "Follow { socket: \"t\", follow: Follow { names: [\"db\"], pattern: None, is_plain: false, is_json: false, is_once: false, timeout: Some(\"5s\"), is_patient: false } }",
    ),
    (
        "ftrighub follow --retry db",
        Some("t"),
        "Follow { socket: \"t\", follow: Follow { names: [\"db\"], pattern: None, is_plain: false, is_json: false, is_once: false, timeout: None, is_patient: true } }",
    ),
    (
        "ftrighub tell db off",
        Some("t"),
        "Tell { socket: \"t\", name: \"db\", state: Off }",
    ),
    (
        "ftrighub tell db down",
        Some("t"),
        "Tell { socket: \"t\", name: \"db\", state: Down }",
    ),
    (
        "ftrighub tell db up",
        Some("t"),
        "Tell { socket: \"t\", name: \"db\", state: Up }",
    ),
    (
        "ftrighub tell db ready",
        Some("t"),
        "Tell { socket: \"t\", name: \"db\", state: Ready }",
    ),
    (
        "ftrighub tell db failed",
        Some("t"),
        "Tell { socket: \"t\", name: \"db\", state: Failed }",
    ),
    (
        "ftrighub hold db",
        Some("t"),
        "Hold { socket: \"t\", hold: Hold { name: \"db\", will: Down, told: None } }",
    ),
    (
        "ftrighub hold db down --tell up",
        Some("t"),
        "Hold { socket: \"t\", hold: Hold { name: \"db\", will: Down, told: Some(Up) } }",
    ),
    (
        "ftrighub hold --tell ready db off --socket s",
        Some("t"),
        "Hold { socket: \"s\", hold: Hold { name: \"db\", will: Off, told: Some(Ready) } }",
    ),
    (
        "ftrighub hold db failed --tell failed",
        Some("t"),
        "Hold { socket: \"t\", hold: Hold { name: \"db\", will: Failed, told: Some(Failed) } }",
    ),
    (
        "ftrighub hold db off --tell=off",
        Some("t"),
        "Hold { socket: \"t\", hold: Hold { name: \"db\", will: Off, told: Some(Off) } }",
    ),
    (
        "ftrighub hold db --tell down",
        Some("t"),
        "Hold { socket: \"t\", hold: Hold { name: \"db\", will: Down, told: Some(Down) } }",
    ),
    (
        "ftrighub make db",
        Some("t"),
        "Make { socket: \"t\", names: [\"db\"], shape: Shape { kind: Service, notifies: true, waiting: 64, total: 1000000000000, policy: Evict } }",
    ),
    (
        "ftrighub make web --no-readiness db --socket s",
        Some("t"),
        "Make { socket: \"s\", names: [\"web\", \"db\"], shape: Shape { kind: Service, notifies: false, waiting: 64, total: 1000000000000, policy: Evict } }",
    ),
    (
        "ftrighub make log --plain",
        Some("t"),
        "Make { socket: \"t\", names: [\"log\"], shape: Shape { kind: Plain, notifies: false, waiting: 64, total: 1000000000000, policy: Evict } }",
    ),
    (
        "ftrighub make --hold db db",
        Some("t"),
        "Make { socket: \"t\", names: [\"db\", \"db\"], shape: Shape { kind: Service, notifies: true, waiting: 64, total: 1000000000000, policy: Hold } }",
    ),
    (
        "ftrighub make --waiting 4096 db",
        Some("t"),
        "Make { socket: \"t\", names: [\"db\"], shape: Shape { kind: Service, notifies: true, waiting: 4096, total: 1000000000000, policy: Evict } }",
    ),
    (
        "ftrighub make --total 7 --no-readiness --plain db",
        Some("t"),
        "Make { socket: \"t\", names: [\"db\"], shape: Shape { kind: Plain, notifies: false, waiting: 64, total: 7, policy: Evict } }",
    ),
];
