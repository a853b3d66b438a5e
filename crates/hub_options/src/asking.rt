//! What a wait or a follow may be told.

/// What a wait is for.
#[derive(Drop, Debug, PartialEq, Eq)]
pub struct Wish<'a> {
    /// `all` or `any`.
    pub span: &'a str,
    /// The state of a service.
    pub want: &'a str,
    /// For how long at most, as the words say it. Without it there is no end.
    pub timeout: Option<&'a str>,
    /// Whether a hub or a name that isn't there yet is an error at once.
    pub is_now: bool,
    /// Whether nothing is written but faults.
    pub is_quiet: bool,
    /// The services.
    pub names: Vec<&'a str>,
}

/// What a follow is of.
#[derive(Drop, Debug, PartialEq, Eq)]
pub struct Follow<'a> {
    /// The fifodirs.
    pub names: Vec<&'a str>,
    /// The hits of this pattern are written, and not each letter.
    pub pattern: Option<&'a str>,
    /// Only letters are written, and nothing else about them.
    pub is_plain: bool,
    /// What is written are objects of JSON. Not so if it is plain.
    pub is_json: bool,
    /// It ends with the first letter, or the first hit.
    pub is_once: bool,
    /// After so long it ends, as the words say it. Without end if they don't.
    pub timeout: Option<&'a str>,
    /// If the hub ends, it waits for the next one.
    pub is_patient: bool,
}
