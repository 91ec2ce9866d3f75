ghost use Rattle.std.specs.Prelude.{◌≡◌, ◌++◌, IfOk, OnOk};
ghost use Rattle.casa_html.specs.Recorded.{recorded_page, script_text, scripted};

use crate::page::PAGE;
use std::alloc::{AllocError, Global};

/// The page that asks the server that it comes from for what it shows, once a second.
pub fn live_page() -> &'static str
    ensures { result.now ≡ PAGE.now }
{
    PAGE
}

/// The page with what it shows behind it, in a script; it asks nobody.
///
/// What it shows is JSON: an object with `day`, as `"2025-06-01"`; `state`, the state; `lists`, an array of the lists of all
/// its regulations; `since`, what came of the calls; and `flights`, an array of flights, which may be left out. A `<`, which
/// stands in strings alone, is written as `\u003c`. `AllocError` where there is no memory for the page.
pub fn recorded_page(alloc: Global, recorded: &[u8]) -> Result<Vec<u8>, AllocError>
    ensures { IfOk result (λ text. text.items ≡ recorded_page PAGE.now recorded.now) }
{
    with_recorded(alloc, PAGE, recorded)
}

/// This page with what it shows behind it.
fn with_recorded(alloc: Global, page: &str, recorded: &[u8]) -> Result<Vec<u8>, AllocError>
    ensures { IfOk result (λ text. text.items ≡ recorded_page page.now recorded.now) }
{
    let mut text = Vec::new(alloc);
    text.extend_from_slice(page.as_bytes())?;
    text.extend_from_slice(b"<script>const RECORDED=")?;
    push_scripted(&mut text, recorded)?;
    text.extend_from_slice(b"</script>\n")?;
    Ok(text)
}

/// Appends JSON as it stands in a script.
fn push_scripted(text: &mut Vec<u8>, json: &[u8]) -> Result<(), AllocError>
    ensures { OnOk result (text.new.items ≡ text.old.items ++ scripted json.now) }
{
    for byte in json {
        push_script_byte(text, *byte)?;
    }
    Ok(())
}

fn push_script_byte(text: &mut Vec<u8>, byte: u8) -> Result<(), AllocError>
    ensures { OnOk result (text.new.items ≡ text.old.items ++ script_text byte) }
{
    if byte == b'<' {
        text.extend_from_slice(b"\\u003c")?;
    } else {
        text.push(byte)?;
    }
    Ok(())
}
