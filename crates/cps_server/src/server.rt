//! The server, and what it answers.
ghost use Rattle.std.specs.Prelude.{◌≡◌, false, map, option_map, OnOk, IfOk, IfSome};
ghost use Rattle.serde_json.specs.Data.{null};
ghost use Rattle.serde_json.specs.View.{view};
ghost use Rattle.serde_json.specs.Written.{has_float};
ghost use Rattle.cps_rpc.specs.Params.{value_of as change_of};
ghost use Rattle.cps_rpc.specs.Message.{request, value_of as asked_by};
ghost use Rattle.cps_server.specs.Answers.{Hears, HearsJson, params_of};
ghost use Rattle.cps_server.specs.Notices as notices;
ghost use Rattle.cps_server.specs.Code.Owing.{has_float_owed, value_of};
ghost use Rattle.cps_server.specs.Code.Renaming.{open_of};
ghost use Rattle.cps_server.specs.Requests as requests;
ghost use Rattle.cps_server.specs.Code.Said.{Into, has_float_id};
ghost use Rattle.cps_server.specs.Code.Taking.{Changes, Takes};
ghost use Rattle.cps_server.specs.ServerState.{beginning, is_shut_down};

use crate::answering::answer;
use crate::diagnostics::{ToldText, list_of, say_closed, say_list};
use crate::introducing::introduction;
use crate::marked_document::MarkedDocument;
use crate::name_places::owed_name;
use crate::notice::Notice;
use crate::open_texts::OpenTexts;
use crate::owed::Owed;
use crate::queried_text::QueriedText;
use crate::query::Query;
use crate::rename_wish::RenameWish;
use crate::renaming::owed_rename;
use crate::request_method::RequestMethod;
use crate::saying::{push_answer, push_rejection};
use crate::server_phase::ServerPhase;
use cps_rpc::{
    Change, Client, Encoding, ErrorCode, JsonFault, Message, OpenedText, Service, changes_in,
    client_in, encoding_in, json_of, position_at, uri_in, version_in,
};
use cps_state::Hashing;
use serde_json::Value;
use std::alloc::{AllocError, Global};
use std::marker::Model;

/// A server: where it stands, with a document for each open text.
pub struct Server {
    alloc: Global,
    hashing: Hashing,
    phase: ServerPhase,
    has_exited: bool,
    encoding: Encoding,
    /// What the editor takes.
    client: Client,
    texts: OpenTexts,
}

// Written out, as that of the texts.
impl Drop for Server {
    fn drop(self) {
        let Server {
            alloc: _,
            hashing: _,
            phase: _,
            has_exited: _,
            encoding: _,
            client: _,
            texts,
        } = self;
        drop(texts);
    }
}

impl Model for Server {
    ghost use Rattle.cps_server.specs.ServerState.{ServerState};

    ghost Value = { ServerState };

    ghost view = { λ server. record { phase = server.phase; has_exited = server.has_exited; encoding = server.encoding; client = server.client; texts = server.texts } };
}

impl Service for Server {
    ghost use Rattle.cps_server.specs.Answers.{IsAnswered};

    ghost answers = { IsAnswered };

    ghost has_ended = { λ server. server.has_exited };

    fn answer(&mut self, message: &[u8], said: &mut Vec<u8>) -> Result<(), AllocError> {
        match json_of(self.alloc, message) {
            Ok(json) => self.hear(&json, said),
            Err(JsonFault::NoJson) => push_rejection(self.alloc, said, ErrorCode::ParseError),
            Err(JsonFault::Memory) => Err(AllocError),
        }
    }

    fn has_ended(&self) -> bool {
        self.has_exited
    }
}

impl Server {
    /// A server that no message has reached.
    pub fn new(alloc: Global, hashing: Hashing) -> Server
        ensures { result ≡ beginning }
    {
        Server {
            alloc,
            hashing,
            phase: ServerPhase::Uninitialized,
            has_exited: false,
            encoding: Encoding::Utf16,
            client: Client::new(),
            texts: OpenTexts::new(alloc),
        }
    }

    /// Whether `shutdown` has come.
    pub fn is_shut_down(&self) -> bool
        ensures { result ≡ is_shut_down self.now.phase }
    {
        self.phase.is_shut_down()
    }

    /// Hears a message, by its JSON.
    fn hear(&mut self, json: &Value, said: &mut Vec<u8>) -> Result<(), AllocError>
        ensures { OnOk result (Into (HearsJson (view json.now)) self.old self.new said.old.items said.new.items) }
    {
        let none = Value::Null;
        self.hear_message(Message::of(json), params_in(json, &none), said)
    }

    /// Hears what a message asks, with its parameters.
    fn hear_message(
        &mut self,
        message: Message<'_>,
        params: &Value,
        said: &mut Vec<u8>,
    ) -> Result<(), AllocError>
        requires { has_float_id (asked_by message) ≡ false }
        ensures { OnOk result (Into (Hears (asked_by message.entry) (view params.now)) self.old self.new said.old.items said.new.items) }
    {
        match message {
            Message::Request { id, method } => self.answer_request(id, method, params, said),
            Message::Notification { method } => self.note(Notice::named(method), params, said),
            Message::Response => Ok(()),
            Message::Invalid => push_rejection(self.alloc, said, ErrorCode::InvalidRequest),
        }
    }

    // ---- requests

    /// Answers the request of a method under its identifier.
    fn answer_request(
        &mut self,
        id: &Value,
        method: &str,
        params: &Value,
        said: &mut Vec<u8>,
    ) -> Result<(), AllocError>
        requires { has_float (view id.now) ≡ false }
        ensures { OnOk result (Into (Hears (request (view id.now) method.now) (view params.now)) self.old self.new said.old.items said.new.items) }
    {
        let request = RequestMethod::named(method);
        let owed = self.owed_to(request, params)?;
        self.move_by(request, params);
        push_answer(self.alloc, said, id, owed)
    }

    /// What is owed to a request, by its parameters.
    fn owed_to(&self, request: RequestMethod, params: &Value) -> Result<Owed, AllocError>
        ensures owed { IfOk result (λ owed. requests.Owes request (view params.now) self.now (value_of owed)) }
        ensures floats { IfOk result (λ owed. has_float_owed (value_of owed) ≡ false) }
    {
        match (self.phase, request) {
            (ServerPhase::Uninitialized, RequestMethod::Initialize) => {
                let found = introduction(self.alloc, encoding_in(params))?;
                Ok(Owed::Found(found))
            }
            (ServerPhase::Uninitialized, _) => Ok(Owed::Refused(ErrorCode::ServerNotInitialized)),
            (ServerPhase::Running, RequestMethod::Shutdown) => Ok(Owed::Found(Value::Null)),
            (ServerPhase::Running, RequestMethod::Query(query)) => self.owed_to_query(
                query, params,
            ),
            (ServerPhase::Running, RequestMethod::PrepareRename) => self.owed_to_naming(params),
            (ServerPhase::Running, RequestMethod::Rename) => self.owed_to_renaming(params),
            (ServerPhase::Running, RequestMethod::Unknown) => Ok(Owed::Refused(
                ErrorCode::MethodNotFound,
            )),
            _ => Ok(Owed::Refused(ErrorCode::InvalidRequest)),
        }
    }

    /// What is owed to a query of a text. It is refused where the parameters are wrong, or name no text that is open.
    fn owed_to_query(&self, query: Query, params: &Value) -> Result<Owed, AllocError>
        ensures owed { IfOk result (λ owed. requests.OwesQuery query (view params.now) self.now (value_of owed)) }
        ensures floats { IfOk result (λ owed. has_float_owed (value_of owed) ≡ false) }
    {
        let Some(uri) = uri_in(params) else {
            return Ok(Owed::Refused(ErrorCode::InvalidParams));
        };
        let Some(document) = self.texts.find(uri) else {
            return Ok(Owed::Refused(ErrorCode::InvalidParams));
        };
        let deck = QueriedText {
            uri,
            version: self.texts.version(uri),
            document,
            encoding: self.encoding,
            client: self.client,
        };
        let told = answer(self.alloc, query, params, deck)?;
        Ok(Owed::by(told))
    }

    /// What is owed to one who asks whether the name at a position can be called otherwise.
    fn owed_to_naming(&self, params: &Value) -> Result<Owed, AllocError>
        ensures { IfOk result (λ owed. requests.OwesName (view params.now) self.now (value_of owed)) }
    {
        let Some(deck) = self.deck_in(params) else {
            return Ok(Owed::Refused(ErrorCode::InvalidParams));
        };
        let Some(position) = position_at(params) else {
            return Ok(Owed::Refused(ErrorCode::InvalidParams));
        };
        owed_name(self.alloc, deck, position)
    }

    /// What is owed to one who wishes to call it otherwise.
    fn owed_to_renaming(&self, params: &Value) -> Result<Owed, AllocError>
        ensures { IfOk result (λ owed. requests.OwesRename (view params.now) self.now (value_of owed)) }
    {
        let Some(deck) = self.deck_in(params) else {
            return Ok(Owed::Refused(ErrorCode::InvalidParams));
        };
        let Some(wish) = RenameWish::of(params) else {
            return Ok(Owed::Refused(ErrorCode::InvalidParams));
        };
        owed_rename(self.alloc, deck, wish)
    }

    /// The open text that parameters name.
    fn deck_in<'a>(&'a self, params: &'a Value) -> Option<QueriedText<'a>>
        ensures deck { option_map open_of result ≡ requests.open_in (view params.now) self.now }
        ensures encoding { IfSome result (λ deck. deck.encoding ≡ self.now.encoding) }
        ensures client { IfSome result (λ deck. deck.client ≡ self.now.client) }
    {
        let uri = uri_in(params)?;
        let document = self.texts.find(uri)?;
        Some(QueriedText {
            uri,
            version: self.texts.version(uri),
            document,
            encoding: self.encoding,
            client: self.client,
        })
    }

    /// Goes where a request leads.
    fn move_by(&mut self, request: RequestMethod, params: &Value)
        ensures { self.new ≡ requests.after_request request (view params.now) self.old }
    {
        match (self.phase, request) {
            (ServerPhase::Uninitialized, RequestMethod::Initialize) => {
                self.phase = ServerPhase::Running;
                self.encoding = encoding_in(params);
                self.client = client_in(params);
            }
            (ServerPhase::Running, RequestMethod::Shutdown) => self.phase = ServerPhase::ShutDown,
            _ => {}
        }
    }

    // ---- notifications

    /// Does what a notification brings about.
    fn note(&mut self, notice: Notice, params: &Value, said: &mut Vec<u8>) -> Result<(), AllocError>
        ensures { OnOk result (Into (notices.NotesAt notice (view params.now)) self.old self.new said.old.items said.new.items) }
    {
        match (self.phase, notice) {
            (_, Notice::Exit) => {
                self.has_exited = true;
                Ok(())
            }
            (ServerPhase::Running, Notice::Open) => self.open(params, said),
            (ServerPhase::Running, Notice::Change) => self.change(params, said),
            (ServerPhase::Running, Notice::Close) => self.close(params, said),
            _ => Ok(()),
        }
    }

    /// Opens a text, and tells its marks. Wrong parameters do nothing.
    fn open(&mut self, params: &Value, said: &mut Vec<u8>) -> Result<(), AllocError>
        ensures { OnOk result (Into (notices.OpensBy (view params.now)) self.old self.new said.old.items said.new.items) }
    {
        let Some(opened) = OpenedText::of(params) else {
            return Ok(());
        };
        let told = ToldText {
            uri: opened.uri,
            version: version_in(params),
        };
        let document = MarkedDocument::open(self.alloc, self.hashing, opened.text.as_bytes())?;
        self.keep(told, document, said)
    }

    /// Changes a text, and tells its marks. Wrong parameters do nothing.
    fn change(&mut self, params: &Value, said: &mut Vec<u8>) -> Result<(), AllocError>
        ensures { OnOk result (Into (notices.ChangesBy (view params.now)) self.old self.new said.old.items said.new.items) }
    {
        let Some(uri) = uri_in(params) else {
            return Ok(());
        };
        let Some(changes) = changes_in(self.alloc, params)? else {
            return Ok(());
        };
        let told = ToldText {
            uri,
            version: version_in(params),
        };
        self.change_text(told, &changes, said)
    }

    /// Changes the text under a URI, if one is open there, and tells its marks.
    fn change_text(
        &mut self,
        told: ToldText<'_>,
        changes: &[Change<'_>],
        said: &mut Vec<u8>,
    ) -> Result<(), AllocError>
        ensures { OnOk result (Into (Changes told.entry (map change_of changes.now)) self.old self.new said.old.items said.new.items) }
    {
        let Some(open) = self.texts.take(told.uri) else {
            return Ok(());
        };
        let document = changed_by(open.into_document(), self.encoding, changes)?;
        self.keep(told, document, said)
    }

    /// Closes a text. Wrong parameters do nothing.
    fn close(&mut self, params: &Value, said: &mut Vec<u8>) -> Result<(), AllocError>
        ensures { OnOk result (Into (notices.ClosesBy (view params.now)) self.old self.new said.old.items said.new.items) }
    {
        match uri_in(params) {
            Some(uri) => self.close_text(uri, said),
            None => Ok(()),
        }
    }

    /// Closes the text under a URI, if one is open there, and tells that it has no diagnostics.
    fn close_text(&mut self, uri: &str, said: &mut Vec<u8>) -> Result<(), AllocError>
        ensures { OnOk result (Into (notices.ClosesUnder uri.now) self.old self.new said.old.items said.new.items) }
    {
        let Some(open) = self.texts.take(uri) else {
            return Ok(());
        };
        drop(open);
        say_closed(self.alloc, uri, said)
    }

    /// Keeps a text open, in the place of another under its URI, and tells its marks.
    fn keep(
        &mut self,
        told: ToldText<'_>,
        document: MarkedDocument,
        said: &mut Vec<u8>,
    ) -> Result<(), AllocError>
        ensures { OnOk result (Into (Takes told.entry document) self.old self.new said.old.items said.new.items) }
    {
        let list = list_of(self.alloc, self.encoding, self.client, told.uri, &document)?;
        say_list(self.alloc, told, &list, said)?;
        drop(self.texts.take(told.uri));
        self.texts.push(told, document)
    }
}

/// A document with changes, one after another.
fn changed_by(
    document: MarkedDocument,
    encoding: Encoding,
    changes: &[Change<'_>],
) -> Result<MarkedDocument, AllocError>
    ensures { IfOk result (λ new. new ≡ notices.changed_by encoding (map change_of changes.now) document) }
{
    let mut document = document;
    for change in changes {
        document = document.change(encoding, change.range, change.text.as_bytes())?;
    }
    Ok(document)
}

/// The parameters of a message; `none`, which is null, where it has none.
fn params_in<'a>(json: &'a Value, none: &'a Value) -> &'a Value
    requires { view none.now ≡ null }
    ensures { view result.now ≡ params_of (view json.now) }
{
    match json.get("params") {
        Some(params) => params,
        None => none,
    }
}
