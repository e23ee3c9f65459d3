//! The phases of a server.
ghost use Rattle.std.specs.Prelude.{◌≡◌};
ghost use Rattle.cps_server.specs.ServerState.{is_shut_down};

/// How far an editor and its server have come.
#[derive(Clone, Copy)]
pub enum ServerPhase {
    /// `initialize` hasn't come.
    Uninitialized,
    /// `initialize` has come.
    Running,
    /// `shutdown` has come.
    ShutDown,
}

impl ServerPhase {
    /// Whether `shutdown` has come.
    pub fn is_shut_down(self) -> bool
        ensures { result ≡ is_shut_down self }
    {
        match self {
            ServerPhase::Uninitialized => false,
            ServerPhase::Running => false,
            ServerPhase::ShutDown => true,
        }
    }
}
