//! A type that refers to itself.
//!
//! It has no DERCanonical: its encoding would be one by recursion over its values.
ghost use Rattle.std.specs.Prelude.{true};
ghost use Rattle.yasna.specs.Words.{IsNested, AnyNested, SameNested, Decodes, IsFresh};
ghost use Rattle.yasna.proofs.Laws.{nested_coding};
ghost use Rattle.examples_proved.specs.Branches.{branches_of};

use yasna::{ASN1Result, BERDecodable, BERReader};

/// A tree: a SEQUENCE OF the trees that branch off it.
#[derive(Drop)]
pub struct Tree {
    pub branches: Vec<Tree>,
}

impl BERDecodable for Tree {
    ghost encodes = { λ m n v b. IsNested branches_of m n v b };

    ghost elements = { λ m n b. AnyNested m n b };

    ghost may_allocate = { true };

    ghost same = { SameNested branches_of };

    fn decode_ber(reader: BERReader) -> ASN1Result<Tree> {
        match reader.collect_sequence_of(
            |item| -> ASN1Result<Tree>
                requires { IsFresh item.old }
                ensures { Decodes true (IsNested branches_of) AnyNested item.old result item.new }
            { Tree::decode_ber(item) },
        ) {
            Ok(branches) => Ok(Tree { branches }),
            Err(error) => Err(error),
        }
    }

    ghost coding = { nested_coding branches_of };
}
