//! The requests that a server answers.
ghost use Rattle.std.specs.Prelude.{◌≡◌};
ghost use Rattle.cps_server.specs.Requests.{request_named, request_of};

use crate::query::Query;

/// A request, by its method.
#[derive(Clone, Copy)]
pub enum RequestMethod {
    /// The first one: it begins the conversation.
    Initialize,
    /// The last one.
    Shutdown,
    /// What an editor asks of a text.
    Query(Query),
    /// Whether the name at a position can be called otherwise.
    PrepareRename,
    /// The edits that call it otherwise.
    Rename,
    /// Any other.
    Unknown,
}

impl RequestMethod {
    /// The request of a method.
    pub fn named(method: &str) -> RequestMethod
        ensures { result ≡ request_named method.now }
    {
        match method {
            "initialize" => RequestMethod::Initialize,
            "shutdown" => RequestMethod::Shutdown,
            "textDocument/prepareRename" => RequestMethod::PrepareRename,
            "textDocument/rename" => RequestMethod::Rename,
            _ => RequestMethod::of(Query::named(method)),
        }
    }

    /// The request that is this query; an unknown one where it is none.
    fn of(query: Option<Query>) -> RequestMethod
        ensures { result ≡ request_of query }
    {
        match query {
            Some(query) => RequestMethod::Query(query),
            None => RequestMethod::Unknown,
        }
    }
}
