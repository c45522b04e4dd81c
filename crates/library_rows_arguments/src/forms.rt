//! The forms of the calls that rows can make.

/// A form is the file that makes the call, its verb, and what is read after that:
///
/// - `NAME`, `TYPE` and the data of a record are written as in the program's lines; `NUMBER` has up to 64 bits. `RECORD` is
///   `NAME TTL TYPE DATA`, or with `CH` before its type, `DATA` a type and data, `QUERIES` a number and so many names with
///   types, and `QUESTIONS` a number of questions for the root and their type.
/// - `OCTETS` are in hex, `-` for none, and `41*63` is one octet 63 times; `LABELS` are as many of them as follow.
/// - `ZONETYPE` is what the server is to a zone, `POLICY` who may transfer it, and `KIND` how it denies: nothing, `nsec`, or
///   `nsec3` or `optout` without salt and iterations. `DIGESTS` is `NAME OCTETS ..`, the digests of a hash, and `for NUMBER`
///   where the hash finds memory for so many calls.
/// - `MANNER` is what a demonstration signer of a number and an origin does: `keyless`, `idle` or `choosy` where it has no key,
///   signs nothing, or signs sets of odd types alone, or `for NUMBER` where it finds memory for so many calls.
/// - `TEXT` is the rest of the row, `WORD` a word, `TTL` whether `ttl` stands where `serial` may, `DNSSEC` and `SIGNED` whether
///   `dnssec` or `signed` follows. `ANSWER`, `AUTHORITY` and `ADDITIONAL` are records of the sections of a response.
/// - The rest reads nothing: `SETS` and `LIST` stand for copies of the sets that were collected, `SET` and `KEPT` for one of the
///   current set and of the one that is kept, `RRSIGS` for the two records before it, and `SOA` for one of the root.
///
/// What is in lower case has to be there itself.
const FORMS: &str = "names: parse: TEXT
names: lower parse: TEXT
names: labels: LABELS
names: lower labels: LABELS
names: describe: NAME
names: lower describe: NAME
names: base: NAME
names: lower base: NAME
names: into_wildcard: NAME
names: lower into_wildcard: NAME
names: prepend: OCTETS NAME
names: lower prepend: OCTETS NAME
names: wire: NAME
names: lower wire: NAME
names: read wire: OCTETS
names: copy name: NAME
names: lower copy: NAME
names: shorten: NAME
names: lowered: NAME
names: converted: NAME
names: holds: NAME NAME
names: lower holds: NAME NAME
names: order: NAME NAME
names: lower order: NAME NAME
names: lower shared: NAME NAME
names: lower ancestor: NUMBER NAME
names: same: NAME NAME
names: lower same: NAME NAME
names: exactly: NAME NAME
names: suffixes: NAME
names: lower suffixes: NAME
names: keys: NAME TYPE NAME TYPE
names: copy key: NAME TYPE
records: type: TEXT
records: types: TYPE TYPE
records: kind of: TYPE
records: newer: NUMBER NUMBER
records: serial of: RECORD
records: class: NUMBER
records: code: NUMBER
records: record: RECORD
records: copy record: RECORD
records: copy data: DATA
records: data order: DATA = DATA
records: copy kind: NUMBER OCTETS NUMBER
records: equal: RECORD = RECORD
records: octets: TYPE OCTETS
records: other: TYPE OCTETS
records: list: OCTETS
records: vec: OCTETS
records: of type: RECORD
records: question: NAME TYPE
sets: set serial: NUMBER
sets: set: NAME TYPE TTL NUMBER
sets: insert: serial NUMBER RECORD
sets: add: DATA
sets: append: serial NUMBER RECORD
sets: sign: RECORD
sets: unsign:
sets: show:
sets: records: SIGNED
sets: slice:
sets: copy set:
sets: keep:
sets: kept:
sets: step serial:
sets: exchange: NUMBER RECORD RECORD RRSIGS
sets: replace: RECORD RECORD RRSIGS
sets: collect under: NAME TYPE
sets: collect:
zones: empty: NAME ZONETYPE POLICY KIND DIGESTS
zones: make: NAME ZONETYPE POLICY KIND DIGESTS SETS
zones: about:
zones: upsert mut: serial NUMBER RECORD
zones: upsert: serial NUMBER RECORD
zones: put:
zones: remove: NAME TYPE
zones: clear:
zones: dump:
zones: get: NAME TYPE
zones: map: NUMBER RECORD
zones: signers:
zones: key mut: NUMBER NAME MANNER
zones: key: NUMBER NAME MANNER
zones: secure mut: NUMBER
zones: secure: NUMBER
zones: signer: NUMBER NUMBER NAME MANNER
searches: any: NAME
searches: search: NAME TYPE DNSSEC
searches: chase: NAME TYPE DNSSEC
searches: additionals: NAME NAME TYPE DNSSEC
searches: made: SET
searches: counts:
denials: closest: NAME
denials: counted: NAME
denials: exists: NAME
denials: owners: TYPE
denials: denying: TYPE
denials: hash: DIGESTS
denials: proof: NAME TYPE
denials: expanded proof: NAME TYPE
hashes: base32: OCTETS
hashes: digest: NAME NUMBER OCTETS NUMBER
hashes: owner: NAME NAME NUMBER OCTETS NUMBER
hashes: wildcard: NAME NAME NUMBER OCTETS NUMBER
handlers: lookup: NAME TYPE DNSSEC
handlers: at: NUMBER NAME TYPE DNSSEC
handlers: request: QUERIES
handlers: transfer: QUESTIONS DNSSEC
handlers: deny: NAME DNSSEC
handlers: hashed: NAME TYPE DNSSEC
handlers: expanded: NAME TYPE DNSSEC
handlers: is:
handlers: kind:
handlers: consult: WORD NAME TYPE
handlers: update: QUERIES
parked: parked lookup: NAME TYPE DNSSEC
parked: parked request: QUERIES
parked: parked transfer: QUESTIONS DNSSEC
parked: parked deny: NAME DNSSEC
parked: parked hashed: NAME TYPE DNSSEC
parked: parked kind:
parked: parked is:
parked: parked consult: WORD NAME TYPE
parked: parked update: QUERIES
answers: section: SET DNSSEC
answers: answer: LIST SET DNSSEC
answers: response: ANSWER AUTHORITY ADDITIONAL
answers: parts: LIST SET KEPT DNSSEC
steps: step: SET WORD
answers: defaults:
answers: edns: WORD
zones: refusal zone:
refusals: refusal: WORD
refusals: negative: NUMBER SOA AUTHORITY
refusals: refused: NUMBER
judgements: judge hashed: NAME NAME TYPE
judgements: judge: NAME NAME TYPE
judgements: proves hashed: WORD NAME NAME TYPE NUMBER
judgements: proves: WORD NAME NAME TYPE NUMBER
words: number: TEXT
words: words: TEXT
words: numbers: TEXT
words: written: TEXT
words: policy: TEXT
";

/// The form of a call: the file that makes it, its verb, and the kinds of what is read after it.
#[derive(Clone, Copy)]
pub struct Form {
    pub subject: &'static str,
    pub verb: &'static str,
    pub kinds: &'static str,
}

/// The form of a row, which is the first whose verb the row begins with, and what follows the verb.
pub fn find_form(row: &str) -> Option<(Form, &str)> {
    for line in FORMS.lines() {
        if let Some(form) = split_form(line) {
            if let Some(rest) = text_after(row, form.verb) {
                return Some((form, rest));
            }
        }
    }
    None
}

fn split_form(line: &'static str) -> Option<Form> {
    let (subject, rest) = line.split_once(": ")?;
    let (verb, kinds) = rest.split_once(":")?;
    Some(Form {
        subject,
        verb,
        kinds,
    })
}

/// What follows a verb, to the end of the row.
fn text_after<'r>(row: &'r str, verb: &str) -> Option<&'r str> {
    let rest = row.strip_prefix(verb)?;
    if rest.is_empty() {
        return Some(rest);
    }
    rest.strip_prefix(" ")
}
