//! NOTIFY messages, written and read.

use compared_rows::read_octets;
use line_text::{HexText, TextError, Words, read_name};
use message_notify::{
    NotifyOutcome, read_notify, read_notify_response, write_notify, write_notify_response,
};
use std::alloc::Global;

/// A NOTIFY, written.
pub fn notify_answer(alloc: Global, mut words: Words<'_>) -> Result<String, TextError> {
    let id = words.take_u16()?;
    let origin = read_name(alloc, &mut words)?;
    words.end()?;
    let octets = write_notify(alloc, id, &origin)?;
    Ok(format!(in alloc; "{}", HexText(octets.as_slice()))?)
}

/// The response to a NOTIFY, written.
pub fn response_answer(
    alloc: Global,
    outcome: NotifyOutcome,
    mut words: Words<'_>,
) -> Result<String, TextError> {
    let message = read_octets(alloc, &mut words)?;
    words.end()?;
    match read_notify(alloc, message.as_slice())? {
        None => Ok(format!(in alloc; "none")?),
        Some(notify) => {
            let octets = write_notify_response(alloc, &notify, outcome)?;
            Ok(format!(in alloc; "{}", HexText(octets.as_slice()))?)
        }
    }
}

/// A NOTIFY, read.
pub fn read_notify_answer(alloc: Global, mut words: Words<'_>) -> Result<String, TextError> {
    let message = read_octets(alloc, &mut words)?;
    words.end()?;
    match read_notify(alloc, message.as_slice())? {
        None => Ok(format!(in alloc; "none")?),
        Some(notify) => Ok(match notify.serial {
            None => format!(in alloc; "{} {} -", notify.id, notify.origin)?,
            Some(serial) => format!(in alloc; "{} {} {serial}", notify.id, notify.origin)?,
        }),
    }
}

/// The response to a NOTIFY, read.
pub fn read_response_answer(alloc: Global, mut words: Words<'_>) -> Result<String, TextError> {
    let message = read_octets(alloc, &mut words)?;
    words.end()?;
    Ok(match read_notify_response(message.as_slice()) {
        None => format!(in alloc; "none")?,
        Some(response) => format!(in alloc; "{} {}", response.id, response.response_code)?,
    })
}
