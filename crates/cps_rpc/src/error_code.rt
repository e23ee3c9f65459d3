//! The errors that requests are refused with.
ghost use Rattle.std.specs.Prelude.{◌≡◌};
ghost use Rattle.cps_rpc.specs.ErrorCode as errors;

/// Why a request is refused.
#[derive(Clone, Copy, Debug, PartialEq, Eq)]
pub enum ErrorCode {
    /// What came is no JSON.
    ParseError,
    /// The JSON is no request, or the request may not come now.
    InvalidRequest,
    /// No method has that name.
    MethodNotFound,
    /// The method doesn't take these parameters.
    InvalidParams,
    /// The request came before `initialize`.
    ServerNotInitialized,
    /// What the request asks can't be done; words say why.
    RequestFailed,
}

impl ErrorCode {
    /// The number of the error.
    pub fn number(self) -> i64
        ensures { result ≡ errors.number_of self }
    {
        match self {
            ErrorCode::ParseError => -32700,
            ErrorCode::InvalidRequest => -32600,
            ErrorCode::MethodNotFound => -32601,
            ErrorCode::InvalidParams => -32602,
            ErrorCode::ServerNotInitialized => -32002,
            ErrorCode::RequestFailed => -32803,
        }
    }

    /// Its text.
    pub fn text(self) -> &'static str
        ensures { result.now ≡ errors.text_of self }
    {
        match self {
            ErrorCode::ParseError => "Parse error",
            ErrorCode::InvalidRequest => "Invalid Request",
            ErrorCode::MethodNotFound => "Method not found",
            ErrorCode::InvalidParams => "Invalid params",
            ErrorCode::ServerNotInitialized => "Server not initialized",
            ErrorCode::RequestFailed => "Request failed",
        }
    }
}
