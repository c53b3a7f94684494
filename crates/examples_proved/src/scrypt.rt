//! The parameters of scrypt (RFC 7914, 7.1), of which the last may be omitted.
ghost use Rattle.std.specs.Prelude.{◌<◌, ◌^◌, true, false, ◌||◌};
ghost use Rattle.yasna.specs.Words.{Always, IsBytes, option_can, part_can, part_of, IsFresh};
ghost use Rattle.yasna.proofs.Laws.{unambiguous_before_nothing, no_part, option_before, part_before, parts_contents, sequence, unsigned_coding, vec_coding};
ghost use Rattle.yasna.proofs.Laws.{no_part_written, option_written, part_written, tuple_written, unsigned_written, vec_written};
ghost use Rattle.examples_proved.specs.Scrypt.{scrypt_parts, EncodesScrypt, AnyScrypt, SameScrypt, ReadsScrypt, scrypt_encoding, scrypt_depth};

use yasna::{
    ASN1Result, BERDecodable, BERReader, DERCanonical, DEREncodable, DERWriter, EncodableParts,
};

/// How a key is made of a password: a SEQUENCE of OCTET STRING and of INTEGERs, the last of which may be omitted.
#[derive(Drop)]
pub struct ScryptParameters {
    pub salt: Vec<u8>,
    pub cost: u64,
    pub block_size: u64,
    pub parallelization: u64,
    /// The count of the key's bytes.
    pub key_length: Option<u64>,
}

impl BERDecodable for ScryptParameters {
    ghost encodes = { EncodesScrypt };

    ghost elements = { AnyScrypt };

    ghost may_allocate = { (true || (false || (false || (false || (false || false))))) };

    ghost same = { SameScrypt };

    fn decode_ber(reader: BERReader) -> ASN1Result<ScryptParameters> {
        reader.read_sequence(
            |seq| -> ASN1Result<ScryptParameters>
                requires { IsFresh (part_of seq.old) }
                ensures { ReadsScrypt (part_of seq.old) result (part_of seq.new) }
            {
                let salt = Vec::<u8>::decode_ber(seq.next())?;
                let cost = u64::decode_ber(seq.next())?;
                let block_size = u64::decode_ber(seq.next())?;
                let parallelization = u64::decode_ber(seq.next())?;
                let key_length = seq.read_optional(|part| u64::decode_ber(part))?;
                Ok(ScryptParameters {
                    salt,
                    cost,
                    block_size,
                    parallelization,
                    key_length,
                })
            },
        )
    }

    ghost coding = { sequence scrypt_parts (part_before vec_coding (part_before (unsigned_coding 64) (part_before (unsigned_coding 64) (part_before (unsigned_coding 64) (option_before (unsigned_coding 64) (unambiguous_before_nothing (unsigned_coding 64)) (parts_contents no_part)))))) };
}

impl DEREncodable for ScryptParameters {
    ghost encoding = { scrypt_encoding };

    ghost depth = { scrypt_depth };

    ghost encodable = { λ v. part_can (λ s. IsBytes s.items) (part_can (λ n. n < 2 ^ 64) (part_can (λ n. n < 2 ^ 64) (part_can (λ n. n < 2 ^ 64) (part_can (option_can (λ n. n < 2 ^ 64)) Always)))) (scrypt_parts v) };

    fn encode_der(&self, writer: DERWriter<'_>) -> ASN1Result<()> {
        let (salt, cost) = (&self.salt, self.cost);
        let (block_size, parallelization) = (self.block_size, self.parallelization);
        match self.key_length {
            Some(length) => writer.write_sequence(|seq| {
                (salt, (cost, (block_size, (parallelization, (length, ()))))).write_parts(seq)
            }),
            None => writer.write_sequence(|seq| {
                (salt, (cost, (block_size, (parallelization, ())))).write_parts(seq)
            }),
        }
    }
}

impl DERCanonical for ScryptParameters {
    ghost written = { tuple_written scrypt_parts (part_written vec_written (part_written (unsigned_written 64) (part_written (unsigned_written 64) (part_written (unsigned_written 64) (part_written (option_written (unsigned_written 64)) no_part_written))))) };
}
