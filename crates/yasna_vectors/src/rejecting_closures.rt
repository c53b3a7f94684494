//! Elements whose closures return an Err of their own, call in call: each is closed over what was written.
//!
//! | Call | Each closure but the innermost discards what it was returned, and then returns |
//! |---|---|
//! | `thrown:CALLS` | Ok |
//! | `rejected:CALLS` | Err(Extra) |
//!
//! CALLS names one call or two, the outer one first, with a dot between them: `seq`, `seqof`, `tag`, `itag` are write_sequence
//! and write_sequence_of, of next, write_tagged and write_tagged_implicit, context 3. The innermost closure writes ARG by
//! write_i64, and returns Err(Invalid). The closure of construct_der around all discards what it was returned too; that of
//! construct_cer where MODE is `cer`.

use crate::encodings::construct_in;
use crate::names::named_within;
use crate::text::Text;
use yasna::{ASN1Error, ASN1ErrorKind, ASN1Result, BERMode, DERWriter, DERWriterSeq, Tag};

// A call that takes a closure.
#[derive(Clone, Copy)]
enum Call {
    Sequence,
    SequenceOf,
    Tagged,
    TaggedImplicit,
}

// The calls by their names.
static CALLS: [(&str, Call); 4] = [
    ("seq", Call::Sequence),
    ("seqof", Call::SequenceOf),
    ("tag", Call::Tagged),
    ("itag", Call::TaggedImplicit),
];

// What is written: a number in one call or two.
#[derive(Clone, Copy)]
struct Calls {
    inner: Call,
    outer: Call,
    number: i64,
    // what each closure but the innermost returns
    rejection: Option<ASN1ErrorKind>,
}

impl Calls {
    // What a closure returns that is around so many calls, and discards what they return.
    fn write_within(self, writer: DERWriter<'_>, depth: u8) -> ASN1Result<()> {
        let Some(below) = depth.checked_sub(1) else {
            let _ = writer.write_i64(self.number);
            return Err(ASN1Error::new(ASN1ErrorKind::Invalid));
        };
        let tag = Tag::context(3);
        let part = |seq: &mut DERWriterSeq| self.write_within(seq.next(), below);
        let whole = |inner: DERWriter<'_>| self.write_within(inner, below);
        let call = if below == 0 { self.inner } else { self.outer };
        let _ = match call {
            Call::Sequence => writer.write_sequence(part),
            Call::SequenceOf => writer.write_sequence_of(part),
            Call::Tagged => writer.write_tagged(tag, whole),
            Call::TaggedImplicit => writer.write_tagged_implicit(tag, whole),
        };
        match self.rejection {
            Some(kind) => Err(ASN1Error::new(kind)),
            None => Ok(()),
        }
    }
}

/// Appends what a call of this family returns, and says whether there are such a call and argument.
pub fn append_outcome(mode: BERMode, call: &str, arg: &str, text: &mut Text) -> bool {
    let Ok(number) = arg.parse() else {
        return false;
    };
    let (rejection, names) = match call.split_once(':') {
        Some(("thrown", names)) => (None, names),
        Some(("refused", names)) => (Some(ASN1ErrorKind::Extra), names),
        _ => return false,
    };
    let Some((depth, inner, outer)) = named_within(&CALLS, names) else {
        return false;
    };
    let calls = Calls {
        inner,
        outer,
        number,
        rejection,
    };
    let encoding = construct_in(
        text.allocator(),
        mode,
        |writer| calls.write_within(writer, depth),
    );
    text.push("ok ");
    text.push_value(&number);
    text.push_encoding(encoding);
    true
}
