//! What is proved of contents, of which no program is part.
ghost use Rattle.asn1_contents.specs.Laws.{ContentsAreExact};

/// Contents have one form in DER, which they keep when they are converted again.
pub fn contents_are_exact()
    ensures { ContentsAreExact }
{}
