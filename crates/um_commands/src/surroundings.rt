//! The inputs of a run of the program other than its words.

/// The inputs of a run of the program other than its words.
#[derive(Clone, Copy)]
pub struct Surroundings<'a> {
    /// Standard output is a terminal.
    pub is_terminal: bool,
    /// The value of the variable UMD_SOCKET.
    pub socket: Option<&'a str>,
    /// The value of the variable UMD_DIR.
    pub dir: Option<&'a str>,
    /// The value of the variable UMD_OUTPUT.
    pub output: Option<&'a str>,
    /// It is the first process of its machine or container.
    pub is_first: bool,
}

/// The option's value, or else the variable's; an empty text counts as none.
pub fn told<'x>(option: Option<&'x str>, variable: Option<&'x str>) -> Option<&'x str> {
    match option {
        Some(text) if !text.is_empty() => Some(text),
        _ => variable.filter(|text| !text.is_empty()),
    }
}
