//! Makes the calls that read words, and those that write and read words of a configuration.

use crate::write::Answer;
use library_rows_arguments::{Arguments, read_zone_type};
use line_text::{TextError, Words, read_ipv4, read_ipv6, read_type, read_u8, read_u16, read_u32};
use std::alloc::Global;
use std::fmt::{Debug, Display};
use std::str;
use zone_handler::{AxfrPolicy, ZoneType};

/// What a word of a configuration file is read as.
type Read<T> = Result<T, serde_json::Error>;

/// Makes a call on words.
pub fn make_word_call(out: &mut Answer, verb: &str, arguments: &mut Arguments<'_>) {
    let (alloc, text) = (arguments.alloc, arguments.text);
    match verb {
        "number" => write_number(out, text),
        "words" => write_words(out, &mut Words::new(text.as_bytes())),
        "numbers" => write_numbers(out, &mut Words::new(text.as_bytes())),
        "written" => write_form(out, alloc, text),
        _ => {
            let policy: Read<AxfrPolicy> = serde_json::from_str(alloc, text);
            write_read(out, policy);
        }
    }
}

/// Writes what is read of a kind of number and a word.
fn write_number(out: &mut Answer, text: &str) {
    let (kind, word) = text.split_once(" ").unwrap_or((text, ""));
    let word = word.as_bytes();
    match kind {
        "u8" => out.show(&read_u8(word)),
        "u16" => out.show(&read_u16(word)),
        "u32" => out.show(&read_u32(word)),
        "ipv4" => out.show(&read_ipv4(word)),
        _ => out.show(&read_ipv6(word)),
    }
}

/// Writes how the words of a text are taken: the first, the second as a type, whether `dnssec` follows, and the last, which has
/// to be there and to be the last.
fn write_words(out: &mut Answer, words: &mut Words<'_>) {
    write_word(out, words.take());
    write_taken(out, read_type(words));
    write_taken(out, words.take_flag(b"dnssec"));
    match words.take_needed() {
        Ok(word) => write_word(out, Some(word)),
        Err(error) => write_taken(out, Err::<bool, TextError>(error)),
    }
    write_end(out, words);
}

/// Writes a word, if there is one.
fn write_word(out: &mut Answer, word: Option<&[u8]>) {
    match word {
        Some(word) => out.say(str::from_utf8(word).unwrap_or("")),
        None => out.say("nothing"),
    }
    out.say(", ");
}

/// Writes the numbers of a text, of 16, 32 and 64 bits, and the timers after them, which are taken one after the other.
fn write_numbers(out: &mut Answer, words: &mut Words<'_>) {
    write_taken(out, words.take_u16());
    write_taken(out, words.take_u32());
    write_taken(out, words.take_u64());
    write_taken(out, words.take_timer());
    write_taken(out, words.take_timer());
    write_end(out, words);
}

/// Writes what was taken, or why there is nothing.
fn write_taken<T: Display + Drop>(out: &mut Answer, taken: Result<T, TextError>) {
    match taken {
        Ok(value) => out.put(&value),
        Err(error) => out.show(&error),
    }
    out.say(", ");
}

/// Writes whether no word is left.
fn write_end(out: &mut Answer, words: &mut Words<'_>) {
    out.say("ends: ");
    out.hold(words.end().is_ok());
}

/// Writes how a configuration file has what a server is to a zone, and whether that is read back; or what another word there is
/// read as.
fn write_form(out: &mut Answer, alloc: Global, word: &str) {
    match read_zone_type(&mut Words::new(word.as_bytes())) {
        Ok(zone_type) => write_and_read(out, alloc, zone_type),
        Err(_) => write_read(out, read_form(alloc, word)),
    }
}

fn write_and_read(out: &mut Answer, alloc: Global, zone_type: ZoneType) {
    match serde_json::to_string(alloc, &zone_type) {
        Ok(text) => {
            out.say(text.as_str());
            out.say(", read back: ");
            out.hold(is_read_as(alloc, text.as_str(), zone_type));
        }
        Err(_) => out.say("error"),
    }
}

fn is_read_as(alloc: Global, text: &str, zone_type: ZoneType) -> bool {
    match read_form(alloc, text) {
        Ok(back) => back == zone_type,
        Err(_) => false,
    }
}

fn read_form(alloc: Global, text: &str) -> Read<ZoneType> {
    serde_json::from_str(alloc, text)
}

/// Writes what was read, or that it was refused.
fn write_read<T: Debug + Drop>(out: &mut Answer, read: Read<T>) {
    match read {
        Ok(value) => out.show(&value),
        Err(_) => out.say("refused"),
    }
}
