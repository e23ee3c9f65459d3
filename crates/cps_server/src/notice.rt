//! The notifications that a server hears.
ghost use Rattle.std.specs.Prelude.{◌≡◌};
ghost use Rattle.cps_server.specs.Notices.{notice_named};

/// A notification, by its method.
#[derive(Clone, Copy)]
pub enum Notice {
    /// The server is to end.
    Exit,
    /// A text is opened.
    Open,
    /// A text is changed.
    Change,
    /// A text is closed.
    Close,
    /// Any other.
    Unknown,
}

impl Notice {
    /// The notification of a method.
    pub fn named(method: &str) -> Notice
        ensures { result ≡ notice_named method.now }
    {
        match method {
            "exit" => Notice::Exit,
            "textDocument/didOpen" => Notice::Open,
            "textDocument/didChange" => Notice::Change,
            "textDocument/didClose" => Notice::Close,
            _ => Notice::Unknown,
        }
    }
}
