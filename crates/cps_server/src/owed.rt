//! What is owed to a request.
ghost use Rattle.std.specs.Prelude.{◌≡◌, option_map};
ghost use Rattle.serde_json.specs.View.{view};
ghost use Rattle.cps_server.specs.Code.Owing.{value_of};
ghost use Rattle.cps_server.specs.Requests as requests;

use cps_rpc::ErrorCode;
use serde_json::Value;

/// What is owed to a request.
#[derive(Drop)]
pub enum Owed {
    /// A refusal.
    Refused(ErrorCode),
    /// What it asked for.
    Found(Value),
    /// Why that can't be done, in words.
    Failed(String),
}

impl Owed {
    /// What is owed where this is told to a query; nothing is told where its parameters are wrong.
    pub fn by(told: Option<Value>) -> Owed
        ensures { value_of result ≡ requests.owed_by (option_map view told) }
    {
        match told {
            Some(told) => Owed::Found(told),
            None => Owed::Refused(ErrorCode::InvalidParams),
        }
    }
}
