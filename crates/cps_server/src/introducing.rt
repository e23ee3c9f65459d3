//! What a server tells of itself.
ghost use Rattle.std.specs.Prelude.{◌≡◌, IfOk};
ghost use Rattle.serde_json.specs.View.{view};
ghost use Rattle.serde_json.specs.Data.{object, no_members};
ghost use Rattle.cps_server.specs.Code.Providing.{capabilities_by, later_by};
ghost use Rattle.cps_server.specs.Requests as requests;
ghost use Rattle.cps_server.specs.Tokens as tokens;

use cps_rpc::Encoding;
use cps_version::VERSION;
use serde_json::{Value, json, put};
use std::alloc::{AllocError, Global};

/// The result of `initialize`: what the server can do, and its name.
pub fn introduction(alloc: Global, encoding: Encoding) -> Result<Value, AllocError>
    ensures { IfOk result (λ json. view json ≡ requests.introduction encoding) }
{
    let capabilities = capabilities(alloc, encoding)?;
    json!(in alloc; {"capabilities": capabilities, "serverInfo": {"name": "compass", "version": VERSION}})
}

/// What is told of requests that have more to tell than that they are answered.
#[derive(Drop)]
pub struct Providers {
    pub mendings: Value,
    pub names: Value,
    pub words: Value,
    pub operands: Value,
    pub texts: Value,
}

/// Those whose members stand behind `foldingRangeProvider`.
#[derive(Drop)]
pub struct LaterProviders {
    pub names: Value,
    pub words: Value,
    pub operands: Value,
    pub texts: Value,
}

fn capabilities(alloc: Global, encoding: Encoding) -> Result<Value, AllocError>
    ensures { IfOk result (λ json. view json ≡ requests.capabilities encoding) }
{
    let mendings = kinds(alloc)?;
    let names = renaming(alloc)?;
    let words = semantic_tokens(alloc)?;
    let operands = triggers(alloc)?;
    let texts = synchronization(alloc)?;
    let providers = Providers {
        mendings,
        names,
        words,
        operands,
        texts,
    };
    capabilities_by(alloc, encoding_name(encoding), providers)
}

fn capabilities_by(
    alloc: Global,
    positions: &str,
    providers: Providers,
) -> Result<Value, AllocError>
    ensures { IfOk result (λ json. view json ≡ capabilities_by positions.now providers) }
{
    let Providers {
        mendings,
        names,
        words,
        operands,
        texts,
    } = providers;
    let later = LaterProviders {
        names,
        words,
        operands,
        texts,
    };
    let Value::Object(map) = later_capabilities(alloc, positions, later)? else {
        unreachable!();
    };
    let mut map = map;
    put(&mut map, alloc, "foldingRangeProvider", Value::Bool(true))?;
    put(&mut map, alloc, "documentSymbolProvider", Value::Bool(true))?;
    put(
        &mut map,
        alloc,
        "documentRangeFormattingProvider",
        Value::Bool(true),
    )?;
    put(
        &mut map,
        alloc,
        "documentHighlightProvider",
        Value::Bool(true),
    )?;
    put(
        &mut map,
        alloc,
        "documentFormattingProvider",
        Value::Bool(true),
    )?;
    put(&mut map, alloc, "definitionProvider", Value::Bool(true))?;
    put(&mut map, alloc, "completionProvider", nothing(alloc)?)?;
    put(&mut map, alloc, "codeActionProvider", mendings)?;
    Ok(Value::Object(map))
}

/// What is told in members behind `foldingRangeProvider`. The last member is put first, so that the prover compares fewer names.
fn later_capabilities(
    alloc: Global,
    positions: &str,
    providers: LaterProviders,
) -> Result<Value, AllocError>
    ensures { IfOk result (λ json. view json ≡ later_by positions.now providers) }
{
    let LaterProviders {
        names,
        words,
        operands,
        texts,
    } = providers;
    json!(in alloc; {
        "textDocumentSync": texts,
        "signatureHelpProvider": operands,
        "semanticTokensProvider": words,
        "renameProvider": names,
        "referencesProvider": true,
        "positionEncoding": positions,
        "inlayHintProvider": true,
        "hoverProvider": true
    })
}

/// An object without a member.
fn nothing(alloc: Global) -> Result<Value, AllocError>
    ensures { IfOk result (λ json. view json ≡ object no_members) }
{
    json!(in alloc; {})
}

/// The name at a position may be asked for before it is called otherwise.
fn renaming(alloc: Global) -> Result<Value, AllocError>
    ensures { IfOk result (λ json. view json ≡ requests.renaming) }
{
    json!(in alloc; {"prepareProvider": true})
}

/// Texts are opened and closed, and changes tell ranges.
fn synchronization(alloc: Global) -> Result<Value, AllocError>
    ensures { IfOk result (λ json. view json ≡ requests.synchronization) }
{
    json!(in alloc; {"change": 2, "openClose": true})
}

/// The kind of what may be mended.
fn kinds(alloc: Global) -> Result<Value, AllocError>
    ensures { IfOk result (λ json. view json ≡ requests.kinds) }
{
    json!(in alloc; {"codeActionKinds": ["quickfix"]})
}

/// The characters behind which the operands of an operation are shown.
fn triggers(alloc: Global) -> Result<Value, AllocError>
    ensures { IfOk result (λ json. view json ≡ requests.triggers) }
{
    json!(in alloc; {"triggerCharacters": [" ", ","]})
}

/// What is told of the words of a text: of all of it, and of ranges.
fn semantic_tokens(alloc: Global) -> Result<Value, AllocError>
    ensures { IfOk result (λ json. view json ≡ requests.semantic_tokens) }
{
    let legend = legend(alloc)?;
    json!(in alloc; {"full": true, "legend": legend, "range": true})
}

fn legend(alloc: Global) -> Result<Value, AllocError>
    ensures { IfOk result (λ json. view json ≡ tokens.legend) }
{
    json!(in alloc; {
        "tokenModifiers": ["definition", "readonly"],
        "tokenTypes": [
            "keyword",
            "macro",
            "parameter",
            "variable",
            "namespace",
            "property",
            "number",
            "string",
            "comment"
        ]
    })
}

fn encoding_name(encoding: Encoding) -> &'static str
    ensures { result.now ≡ requests.encoding_name encoding }
{
    match encoding {
        Encoding::Utf8 => "utf-8",
        Encoding::Utf16 => "utf-16",
    }
}
