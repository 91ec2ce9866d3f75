//! Responses.

ghost use Rattle.std.specs.Prelude.{◌≡◌, [], ◌∷◌, ◌++◌, IsTrue, OnOk};
ghost use Rattle.std.specs.Option.{option_map};
ghost use Rattle.http_header.specs.FieldName.{is_header_name};
ghost use Rattle.http_header.specs.FieldValue.{is_visible_text};
ghost use Rattle.http_server.specs.Response.{IsBlank, IsResponse, fields_of};
ghost use Rattle.casa_http.specs.Answered.{IsFound, IsOnlyFor, IsRefused, IsText, IsUnavailable, common_fields};

use bytes::BufMut;
use http::{HeaderName, HeaderValue, StatusCode, header};
use http_server::Response;
use std::alloc::AllocError;

/// What a browser lets the page do: run and draw what is in it, and ask the server that it came from. It stands in no frame.
const POLICY: &str = concat!(
    "default-src 'none'; script-src 'unsafe-inline'; style-src 'unsafe-inline'; connect-src 'self'; ",
    "base-uri 'none'; form-action 'none'; frame-ancestors 'none'"
);

/// Answers by a status alone. Where there is no memory for its fields, it is 503.
pub(crate) fn refuse(response: &mut Response, status: StatusCode)
    requires { IsBlank response.old }
    ensures { IsRefused status response.new }
{
    if add_common_fields(response).is_err() {
        give_up(response);
    } else {
        response.status = status;
    }
}

/// Answers that only this method is allowed. Where there is no memory for its fields, it is 503.
pub(crate) fn allow_only(response: &mut Response, method: &'static str)
    requires blank { IsBlank response.old }
    requires visible { IsTrue (is_visible_text method.now) }
    ensures { IsOnlyFor method.now response.new }
{
    if fill(response, header::ALLOW, method, &[]).is_err() {
        give_up(response);
    } else {
        response.status = StatusCode::METHOD_NOT_ALLOWED;
    }
}

/// Answers by a text of this kind. Where there is no memory for it, it is 503.
pub(crate) fn send_text(response: &mut Response, kind: &'static str, text: &[u8])
    requires blank { IsBlank response.old }
    requires visible { IsTrue (is_visible_text kind.now) }
    ensures { IsText kind.now text.now response.new }
{
    if fill(response, header::CONTENT_TYPE, kind, text).is_err() {
        give_up(response);
    }
}

/// Answers by a text of this kind, or by this status where there is none. Where there is no memory for it, it is 503.
pub(crate) fn send_found(
    response: &mut Response,
    kind: &'static str,
    else_status: StatusCode,
    found: &Option<Vec<u8>>,
)
    requires blank { IsBlank response.old }
    requires visible { IsTrue (is_visible_text kind.now) }
    ensures { IsFound kind.now else_status (option_map (λ text. text.items) found.now)
        response.new }
{
    match found {
        Some(text) => send_text(response, kind, text.as_slice()),
        None => refuse(response, else_status),
    }
}

/// Answers that there is no memory for an answer.
pub(crate) fn give_up(response: &mut Response)
    ensures { IsUnavailable response.new }
{
    response.clear();
    response.status = StatusCode::SERVICE_UNAVAILABLE;
}

/// Adds the common fields, this field and this text. `AllocError` where there is no memory for them; some of them may then be
/// there.
fn fill(
    response: &mut Response,
    name: HeaderName,
    value: &'static str,
    text: &[u8],
) -> Result<(), AllocError>
    requires blank { IsBlank response.old }
    requires visible { IsTrue (is_visible_text value.now) }
    ensures { OnOk result (IsResponse 200 (common_fields ++ (name, value.now) ∷ [])
        text.now response.new) }
{
    add_common_fields(response)?;
    add(response, name, value)?;
    response.body.put_slice(text)
}

/// Adds the common fields. `AllocError` where there is no memory for them; some of them may then be there.
fn add_common_fields(response: &mut Response) -> Result<(), AllocError>
    requires { IsBlank response.old }
    ensures { OnOk result (IsResponse 200 common_fields [] response.new) }
{
    add(response, header::CACHE_CONTROL, "no-store")?;
    add(response, header::CONTENT_SECURITY_POLICY, POLICY)?;
    add(
        response,
        HeaderName::from_static("cross-origin-resource-policy"),
        "same-origin",
    )?;
    add(response, header::X_CONTENT_TYPE_OPTIONS, "nosniff")
}

/// Adds a field. `AllocError` where there is no memory for it.
fn add(response: &mut Response, name: HeaderName, value: &'static str) -> Result<(), AllocError>
    requires { IsTrue (is_visible_text value.now) }
    ensures fields { OnOk result
        (fields_of response.new ≡ fields_of response.old ++ (name, value.now) ∷ []) }
    ensures status { response.new.status ≡ response.old.status }
    ensures body { response.new.body ≡ response.old.body }
{
    response.add_header(name, HeaderValue::from_static(value))
}
