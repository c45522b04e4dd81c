//! Which command a line is.
ghost use Rattle.std.specs.Prelude.{◌≡◌, ◌∷◌, Some, None, IfOk, IfErr};
ghost use Rattle.line_text.specs.Errors.{OnBadText};
ghost use Rattle.line_text.specs.Hex.{hex_word};
ghost use Rattle.line_text.specs.Reading.{next_word};
ghost use Rattle.zonectl_commands.specs.Commands.{begins_comment, command_of_words, forms, kind_by_word, next_hashed_kind, next_kind, next_options, next_query, read_by, said_by};

use line_text::{TextError, Words, read_hex, read_key, read_name, read_record, read_type};
use lookup_types::LookupOptions;
use std::alloc::Global;
use std::str;
use zone_proto::{LowerName, NxProofKind, Record, RecordType, RrKey, Seq};

/// The number of SHA-1 among the hash algorithms of NSEC3 records (RFC 5155 section 11).
pub const SHA_1: u8 = 1;

/// What a line tells the program to do.
#[derive(Drop)]
pub enum Command {
    /// `add NAME TTL TYPE DATA`: upserts a record.
    Add(Record),
    /// `drop NAME TYPE`: takes a record set out.
    Drop(RrKey),
    /// `kind none`, `kind nsec`, `kind nsec3 SALT ITERATIONS`, or the last with `optout` after it: makes the zone anew, without
    /// records and signers, and says how it denies what it doesn't hold once it is secured: not at all, by NSEC records, or by
    /// NSEC3 records, where opt-out leaves out names that own NS alone.
    Kind(Option<NxProofKind>),
    /// `key N`: adds the demonstration signer of this number.
    Key(u16),
    /// `secure NOW`: secures the zone at this moment, in seconds since 1970.
    Secure(u64),
    /// `lookup NAME TYPE`, or with `dnssec` after it where signatures are wanted: answers a query.
    Lookup {
        name: LowerName,
        record_type: RecordType,
        options: LookupOptions,
    },
    /// `deny NAME TYPE`: lists the records that deny a name, or a type of it.
    Deny(RrKey),
    /// `circle`: lists the owners of the zone's NSEC sets, or of its NSEC3 sets, as its kind says.
    Circle,
    /// `transfer`, or `transfer dnssec` where signatures are wanted: lists the whole zone.
    Transfer(LookupOptions),
}

/// Reads the command of a line, or None if the line is blank or a comment, which begins with `#`. `BadText` where it is
/// neither. Its only error is `Memory`.
pub(crate) fn read_command(alloc: Global, line: &[u8]) -> Result<Option<Command>, TextError>
    ensures ok { IfOk result (λ said. said_by line.now ≡ Some said) }
    ensures refusal { OnBadText result (said_by line.now ≡ None) }
{
    let mut words = Words::new(line);
    match words.take() {
        None => Ok(None),
        Some(first) => {
            if begins_comment(first) {
                Ok(None)
            } else {
                Ok(Some(read_words(alloc, first, &mut words)?))
            }
        }
    }
}

/// Whether a line with this first word is a comment.
fn begins_comment(first: &[u8]) -> bool
    ensures { result ≡ begins_comment first.now }
{
    first.first() == Some(&b'#')
}

/// Reads the command of all words of a line.
#[tactic(auto, using(crate::proofs::CommandFacts::commanded))]
fn read_words(alloc: Global, first: &[u8], words: &mut Words<'_>) -> Result<Command, TextError>
    ensures ok { IfOk result (λ command. command_of_words (first.now ∷ words.old) ≡ Some command) }
    ensures refusal { OnBadText result (command_of_words (first.now ∷ words.old) ≡ None) }
{
    let Ok(verb) = str::from_utf8(first) else {
        return Err(TextError::BadText);
    };
    let command = read_arguments(alloc, verb, words)?;
    words.end()?;
    Ok(command)
}

/// Reads the words behind the first word of a command.
#[tactic(auto, using(line_text::proofs::ReadingFacts::reading))]
fn read_arguments(alloc: Global, verb: &str, words: &mut Words<'_>) -> Result<Command, TextError>
    ensures ok { IfOk result
        (λ command. read_by forms verb.now words.old ≡ Some (command, words.new)) }
    ensures refusal { OnBadText result (read_by forms verb.now words.old ≡ None) }
{
    match verb {
        "add" => Ok(Command::Add(read_record(alloc, words)?)),
        "drop" => Ok(Command::Drop(read_key(alloc, words)?)),
        "kind" => Ok(Command::Kind(read_kind(alloc, words)?)),
        "key" => Ok(Command::Key(words.take_u16()?)),
        "secure" => Ok(Command::Secure(words.take_u64()?)),
        "lookup" => read_query(alloc, words),
        "deny" => Ok(Command::Deny(read_key(alloc, words)?)),
        "circle" => Ok(Command::Circle),
        "transfer" => Ok(Command::Transfer(read_options(words)?)),
        _ => Err(TextError::BadText),
    }
}

/// Reads how a zone denies what it doesn't hold.
#[tactic(auto, using(line_text::proofs::ReadingFacts::reading, crate::proofs::CommandFacts::kinds))]
fn read_kind(alloc: Global, words: &mut Words<'_>) -> Result<Option<NxProofKind>, TextError>
    ensures ok { IfOk result (λ kind. next_kind words.old ≡ Some (kind, words.new)) }
    ensures refusal { OnBadText result (next_kind words.old ≡ None) }
{
    let word = words.take_needed()?;
    match str::from_utf8(word) {
        Ok(word) => read_kind_by(alloc, word, words),
        Err(_) => Err(TextError::BadText),
    }
}

/// Reads the parameters of a kind that this word names.
fn read_kind_by(
    alloc: Global,
    word: &str,
    words: &mut Words<'_>,
) -> Result<Option<NxProofKind>, TextError>
    ensures ok { IfOk result (λ kind. kind_by_word word.now words.old ≡ Some (kind, words.new)) }
    ensures refusal { OnBadText result (kind_by_word word.now words.old ≡ None) }
{
    match word {
        "none" => Ok(None),
        "nsec" => Ok(Some(NxProofKind::Nsec)),
        "nsec3" => Ok(Some(read_hashed_kind(alloc, words)?)),
        _ => Err(TextError::BadText),
    }
}

/// Reads how a zone denies by NSEC3 records, whose names are hashed by SHA-1: the salt, the iterations, and whether opt-out
/// is chosen.
#[tactic(auto, using(line_text::proofs::ReadingFacts::reading))]
fn read_hashed_kind(alloc: Global, words: &mut Words<'_>) -> Result<NxProofKind, TextError>
    ensures ok { IfOk result (λ kind. next_hashed_kind words.old ≡ Some (kind, words.new)) }
    ensures refusal { OnBadText result (next_hashed_kind words.old ≡ None) }
{
    let salt = read_salt(alloc, words)?;
    Ok(NxProofKind::Nsec3 {
        algorithm: SHA_1,
        salt,
        iterations: words.take_u16()?,
        opt_out: words.take_flag(b"optout")?,
    })
}

/// Reads the next word as the octets of a salt.
#[tactic(auto, using(line_text::proofs::ReadingFacts::reading))]
fn read_salt(alloc: Global, words: &mut Words<'_>) -> Result<Seq<u8>, TextError>
    ensures ok { IfOk result (λ salt. next_word hex_word words.old ≡ Some (salt, words.new)) }
    ensures refusal { OnBadText result (next_word hex_word words.old ≡ None) }
{
    let word = words.take_needed()?;
    match read_hex(alloc, word)? {
        Some(octets) => Ok(Seq::from_vec(octets)),
        None => Err(TextError::BadText),
    }
}

/// Reads a query.
#[tactic(auto, using(line_text::proofs::ReadingFacts::reading))]
fn read_query(alloc: Global, words: &mut Words<'_>) -> Result<Command, TextError>
    ensures ok { IfOk result (λ query. next_query words.old ≡ Some (query, words.new)) }
    ensures refusal { OnBadText result (next_query words.old ≡ None) }
{
    let name = read_name(alloc, words)?;
    let record_type = read_type(words)?;
    let options = read_options(words)?;
    Ok(Command::Lookup {
        name: LowerName::from(name),
        record_type,
        options,
    })
}

/// Reads whether signatures are wanted: they are after the word `dnssec`, and aren't at the end of the line.
#[tactic(auto, using(line_text::proofs::ReadingFacts::reading))]
fn read_options(words: &mut Words<'_>) -> Result<LookupOptions, TextError>
    ensures ok { IfOk result (λ options. next_options words.old ≡ Some (options, words.new)) }
    ensures refusal { IfErr result (λ e. next_options words.old ≡ None) }
{
    Ok(LookupOptions {
        dnssec_ok: words.take_flag(b"dnssec")?,
    })
}
