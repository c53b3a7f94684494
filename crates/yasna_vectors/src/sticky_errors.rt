//! Failures that callbacks discard, call in call: each call returns the first sticky error.
//!
//! | Call | Each callback discards what it was returned, and then returns |
//! |---|---|
//! | `drop:CALLS` | Ok |
//! | `replace:CALLS` | Err(Extra) |
//!
//! CALLS names one call or two, the outer one first, with a dot between them. The inner one's callback reads an INTEGER.
//! The parse around both has such a callback too.
//!
//! | Name | Call |
//! |---|---|
//! | `parse` | none but the parse |
//! | `seq` | read_sequence, of next |
//! | `seqof`, `collect` | read_sequence_of, collect_sequence_of |
//! | `tag`, `itag` | read_tagged, read_tagged_implicit, context 3 |
//! | `buf`, `seqbuf` | read_with_buffer of the reader; of the parts in a read_sequence, of next |
//! | `opt`, `def` | read_optional, and read_default of `()`, in a read_sequence |
//!
//! The result is `err KIND` only where each call returned that kind, from the innermost to the parse.

use crate::names::named_within;
use crate::reading::kind_of;
use crate::text::Text;
use std::alloc::Global;
use yasna::{
    ASN1Error, ASN1ErrorKind, ASN1Result, BERMode, BERReader, BERReaderSeq, Tag, parse_ber_general,
};

// A call that takes a callback.
#[derive(Clone, Copy)]
enum Call {
    Sequence,
    SequenceOf,
    Collect,
    Tagged,
    TaggedImplicit,
    Buffer,
    PartsBuffer,
    Optional,
    Default,
}

// The calls by their names.
static CALLS: [(&str, Call); 9] = [
    ("seq", Call::Sequence),
    ("seqof", Call::SequenceOf),
    ("collect", Call::Collect),
    ("tag", Call::Tagged),
    ("itag", Call::TaggedImplicit),
    ("buf", Call::Buffer),
    ("seqbuf", Call::PartsBuffer),
    ("opt", Call::Optional),
    ("def", Call::Default),
];

// What the calls returned so far, and what a callback returns.
#[derive(Clone, Copy)]
struct Outcomes {
    first: Option<ASN1ErrorKind>,
    // whether one after the first error returned anything else
    others: bool,
    replaces: bool,
}

impl Outcomes {
    // Notes what a call returned.
    fn note(&mut self, rejection: Option<ASN1ErrorKind>) {
        match self.first {
            None => self.first = rejection,
            Some(_) => self.others = self.others || rejection != self.first,
        }
    }

    // What a callback returns that discards this error, or a result that was none.
    fn discard(&mut self, rejection: Option<ASN1ErrorKind>) -> ASN1Result<()> {
        self.note(rejection);
        if self.replaces {
            return Err(ASN1Error::new(ASN1ErrorKind::Extra));
        }
        Ok(())
    }
}

// What a callback reads.
trait Body: Copy {
    // Makes the calls: why the outermost was rejected, if it was.
    fn read(self, reader: BERReader, outcomes: &mut Outcomes) -> Option<ASN1ErrorKind>;
}

// An INTEGER.
#[derive(Clone, Copy)]
struct Integer;

impl Body for Integer {
    fn read(self, reader: BERReader, _outcomes: &mut Outcomes) -> Option<ASN1ErrorKind> {
        kind_of(reader.read_i64())
    }
}

// What a callback returns that discards what it reads.
fn throw_away<B: Body>(body: B, reader: BERReader, outcomes: &mut Outcomes) -> ASN1Result<()> {
    let discarded = body.read(reader, outcomes);
    outcomes.discard(discarded)
}

// A call whose callback discards what it reads.
#[derive(Clone, Copy)]
struct Around<B> {
    call: Call,
    body: B,
}

impl<B: Body> Body for Around<B> {
    fn read(self, reader: BERReader, outcomes: &mut Outcomes) -> Option<ASN1ErrorKind> {
        let Around { call, body } = self;
        if let Call::Sequence | Call::PartsBuffer | Call::Optional | Call::Default = call {
            return kind_of(reader.read_sequence(|seq| read_parts(call, body, seq, outcomes)));
        }
        let tag = Tag::context(3);
        let read = |inner: BERReader| throw_away(body, inner, outcomes);
        match call {
            Call::SequenceOf => kind_of(reader.read_sequence_of(read)),
            Call::Tagged => kind_of(reader.read_tagged(tag, read)),
            Call::TaggedImplicit => kind_of(reader.read_tagged_implicit(tag, read)),
            Call::Buffer => kind_of(reader.read_with_buffer(read)),
            _ => kind_of(reader.collect_sequence_of(read)),
        }
    }
}

// The parts of a sequence, where the call may be around one of them.
fn read_parts<B: Body>(
    call: Call,
    body: B,
    seq: &mut BERReaderSeq,
    outcomes: &mut Outcomes,
) -> ASN1Result<()> {
    let discarded = match call {
        Call::PartsBuffer => {
            kind_of(seq.read_with_buffer(|parts| throw_away(body, parts.next(), outcomes)))
        }
        Call::Sequence => return throw_away(body, seq.next(), outcomes),
        _ => {
            let read = |part: BERReader| throw_away(body, part, outcomes);
            match call {
                Call::Optional => kind_of(seq.read_optional(read)),
                _ => kind_of(seq.read_default((), read)),
            }
        }
    };
    outcomes.discard(discarded)
}

/// Appends what a call of this family returns on these bytes, and says whether there is one of this name.
pub fn append_outcome(mode: BERMode, call: &str, bytes: &[u8], text: &mut Text) -> bool {
    let (replaces, names) = match call.split_once(':') {
        Some(("drop", names)) => (false, names),
        Some(("replace", names)) => (true, names),
        _ => return false,
    };
    let named = match names {
        "parse" => Some((0, Call::Sequence, Call::Sequence)),
        _ => named_within(&CALLS, names),
    };
    let Some((depth, inner, outer)) = named else {
        return false;
    };
    let mut outcomes = Outcomes {
        first: None,
        others: false,
        replaces,
    };
    let alloc = text.allocator();
    let body = Around {
        call: inner,
        body: Integer,
    };
    match depth {
        0 => parse(alloc, mode, bytes, Integer, &mut outcomes),
        1 => parse(alloc, mode, bytes, body, &mut outcomes),
        _ => parse(
            alloc,
            mode,
            bytes,
            Around { call: outer, body },
            &mut outcomes,
        ),
    }
    append_shown(outcomes, text);
    true
}

// Makes a parse whose callback discards what it reads.
fn parse<B: Body>(alloc: Global, mode: BERMode, bytes: &[u8], body: B, outcomes: &mut Outcomes) {
    let callback = |reader: BERReader| throw_away(body, reader, outcomes);
    let whole = kind_of(parse_ber_general(alloc, bytes, mode, callback));
    outcomes.note(whole);
}

// Appends the result of calls, where each returned the first error.
fn append_shown(outcomes: Outcomes, text: &mut Text) {
    match outcomes.first {
        Some(kind) => text.reject(kind),
        None => text.push("ok"),
    }
    if outcomes.others {
        text.push(", and another answer behind it");
    }
}
