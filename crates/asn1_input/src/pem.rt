//! Blocks of PEM (RFC 7468), line by line.
ghost use Rattle.std.specs.Prelude.{◌≡◌, ◌<◌, ◌∷◌, ◌↔◌, ℕ, List, false, [], None, IfOk, IfErr, IfSome, IfNone, IsTrue, option_map, length};
ghost use Rattle.yasna_base.specs.declared.error.ASN1ErrorKind.TheVariants.{Eof};
ghost use Rattle.asn1_input.specs.Blocks.{begin_boundary, lines_left, lines_of, unindented, Begins, BeginsBlock, EndsBlock};
ghost use Rattle.asn1_input.specs.Input.{BeginsAsBlock};
ghost use Rattle.asn1_input.specs.Reader.{has_any, next_offset, open_lines, IsCutOff, IsDecoded, IsUnclosed, TakesLine};
ghost use Rattle.asn1show_walk.specs.Errors.{IsMalformed};

use crate::block::{TextLine, decode_block, missing};
use asn1show_walk::{Expected, WalkError};
use std::alloc::{AllocError, Global};

const BEGIN: &[u8] = b"-----BEGIN ";

const END: &[u8] = b"-----END ";

/// The first line of a text, and the text after its end, if it has one.
pub fn cut_line(text: &[u8]) -> (&[u8], Option<&[u8]>)
    ensures lines { lines_of text.now ≡ result.0.now ∷ lines_left result.1 }
    ensures shorter { IfSome result.1 (λ after. length after.now < length text.now) }
{
    match text.iter().position(|octet| *octet == b'\n') {
        Some(end) => (&text[..end], Some(&text[end + 1..])),
        None => (text, None),
    }
}

/// A text without the white space at its start.
pub fn unindented(line: &[u8]) -> &[u8]
    ensures { result.now ≡ unindented line.now }
{
    line.trim_ascii_start()
}

/// Whether a line begins as the first line of a block does.
pub fn begins_as_block(line: &[u8]) -> bool
    ensures { IsTrue result ↔ BeginsAsBlock line.now }
{
    unindented(line).starts_with(BEGIN)
}

// Whether a line ends a block.
fn ends_block(line: &[u8]) -> bool
    ensures { IsTrue result ↔ EndsBlock line.now }
{
    unindented(line).starts_with(END)
}

// The label of an unindented line that begins a block.
fn label_of(line: &[u8]) -> Option<&[u8]>
    ensures label { IfSome result (λ label. Begins line.now label.now) }
    ensures none { IfNone result ((label : List ℕ) → Begins line.now label → ⊥) }
{
    let rest = line.strip_prefix(BEGIN)?;
    rest.trim_ascii_end().strip_suffix(b"-----")
}

/// A block of PEM that has ended.
#[derive(Drop)]
pub struct Block<'a> {
    /// The label, from the line that begins it.
    pub label: &'a [u8],
    /// The bytes, or why it has none.
    pub bytes: Result<Vec<u8>, WalkError>,
}

// An open block, and its lines.
#[derive(Drop)]
struct OpenBlock<'a> {
    label: &'a [u8],
    lines: Vec<TextLine<'a>>,
}

impl<'a> OpenBlock<'a> {
    // The block that this line begins, if it begins one.
    fn begin(alloc: Global, line: &'a [u8]) -> Option<OpenBlock<'a>>
        ensures lines { IfSome result (λ b. b.lines.items ≡ []) }
        ensures begins { IfSome result (λ b. BeginsBlock line.now) }
        ensures none { IfNone result (BeginsBlock line.now → ⊥) }
    {
        let label = label_of(unindented(line))?;
        let lines = Vec::new(alloc);
        Some(OpenBlock { label, lines })
    }

    // The whole block, whose last line is at this offset.
    fn end(self, alloc: Global, offset: usize) -> Block<'a>
        ensures { IsDecoded self.entry.lines.items offset result.bytes }
    {
        let OpenBlock { label, lines } = self;
        let bytes = decode_block(alloc, lines.as_slice(), offset);
        Block { label, bytes }
    }

    // The block, which another one or the end of the input cuts off at this offset.
    fn cut(self, offset: usize) -> Block<'a>
        ensures { IsCutOff offset result.bytes }
    {
        Block {
            label: self.label,
            bytes: Err(missing(offset, Expected::BlockEnd)),
        }
    }
}

/// A reader of PEM, line by line.
#[derive(Drop)]
pub struct PemReader<'a> {
    alloc: Global,
    // Where the next line begins.
    offset: usize,
    block: Option<OpenBlock<'a>>,
    // Whether a block has ended.
    is_any: bool,
}

impl<'a> PemReader<'a> {
    /// A reader before the first line, which begins at this offset.
    pub fn new(alloc: Global, offset: usize) -> PemReader<'a>
        ensures lines { open_lines result ≡ None }
        ensures any { has_any result ≡ false }
        ensures next { next_offset result ≡ offset }
    {
        PemReader {
            alloc,
            offset,
            block: None,
            is_any: false,
        }
    }

    // Goes past the end of a line, and returns where the line begins.
    fn pass(&mut self, line: &[u8]) -> usize
        ensures begins { result ≡ next_offset self.old }
        ensures lines { open_lines self.new ≡ open_lines self.old }
        ensures any { has_any self.new ≡ has_any self.old }
    {
        let offset = self.offset;
        self.offset = offset.saturating_add(line.len()).saturating_add(1);
        offset
    }

    /// Takes a line, and returns the block that ends with it or is cut off by it.
    pub fn push(&mut self, line: &'a [u8]) -> Result<Option<Block<'a>>, AllocError>
        ensures { IfOk result (λ block. TakesLine self.old line.now (option_map (λ b. b.bytes) block) self.new) }
    {
        let offset = self.pass(line);
        let next = OpenBlock::begin(self.alloc, line);
        let Some(mut block) = self.block.take() else {
            self.block = next;
            return Ok(None);
        };
        if ends_block(line) {
            self.is_any = true;
            return Ok(Some(block.end(self.alloc, offset)));
        }
        if next.is_some() {
            self.block = next;
            return Ok(Some(block.cut(offset)));
        }
        block.lines.push(TextLine { offset, text: line })?;
        self.block = Some(block);
        Ok(None)
    }

    /// The block that is open at the end of an input of this size, or else an error if no block has ended.
    pub fn finish(&mut self, size: usize) -> Result<Option<Block<'a>>, WalkError>
        ensures open { IfOk result (λ block. IsUnclosed self.old size (option_map (λ b. b.bytes) block)) }
        ensures malformed { IfErr result (λ f. IsMalformed (λ at kind. (at ≡ size) × (kind ≡ Eof) × (has_any self.old ≡ false)) f) }
    {
        if let Some(block) = self.block.take() {
            return Ok(Some(block.cut(size)));
        }
        if self.is_any {
            return Ok(None);
        }
        Err(missing(size, Expected::Block))
    }
}
