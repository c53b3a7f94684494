//! Reads of SET OF, whose elements ascend in DER and CER (X.690, 8.12 and 11.6): `read_set_of` and `collect_set_of`, which users call,
//! and the order of elements, which `sequence_of` tests after each turn.
ghost use Rattle.std.specs.Prelude.{◌≡◌};
ghost use Rattle.yasna_reader.specs.SetOf.{goes_before, bound_bytes, bound_in};
ghost use Rattle.yasna_base.specs.Set.{set_tag};

use crate::callback::Outcome;
use crate::state::{BERReader, ReaderState};
use yasna_base::bytes::order::compare_octets;
use yasna_base::error::{ASN1Error, ASN1ErrorKind, ASN1Result};
use yasna_base::mode::BERMode;
use yasna_base::tags::TAG_SET;
use yasna_bytes::bytes::walk::prefix_before;

/// The order of the elements of a list.
#[derive(Clone, Copy)]
pub enum Order {
    /// In any order.
    Any,
    /// In DER and CER none is less than the one before.
    Ascending,
}

/// The bound of the first element, where elements have to ascend.
#[inline(always)]
pub fn first_bound<'a>(order: Order, mode: BERMode) -> Option<&'a [u8]>
    ensures { bound_bytes result ≡ bound_in order mode }
{
    match order {
        Order::Any => None,
        Order::Ascending => match mode {
            BERMode::Ber => None,
            BERMode::Der => Some(&[]),
            BERMode::Cer => Some(&[]),
        },
    }
}

// Whether an encoding goes before another.
#[inline(always)]
fn goes_before(element: &[u8], other: &[u8]) -> bool
    ensures { result ≡ goes_before element.now other.now }
{
    compare_octets(element, other).is_lt()
}

impl<'a> ReaderState<'a> {
    ghost use Rattle.std.specs.Fn.{CalledAtMut};
    ghost use Rattle.yasna_reader.specs.Sequence.{TakesContents, ReadsParts};
    ghost use Rattle.yasna_reader.specs.SetOf.{CollectsInOrder, TakesTurnsInOrder, VisitsInOrder, Ordered, bound_bytes};
    ghost use Rattle.yasna_bytes.specs.Walk.{IsRest};
    ghost use Rattle.yasna_reader.specs.declared.set_of.Order.TheVariants.{Ascending};

    /// Reads a SET OF (X.690, 8.12): the callback reads one element each time that it is called.
    ///
    /// It is called as in `read_sequence_of`. In DER and CER an element whose bytes are less than those of the previous one is
    /// `Invalid`, and that is sticky (11.6).
    #[inline(always)]
    pub fn read_set_of<F>(&mut self, f: F) -> ASN1Result<()>
    where
        F: FnMut(BERReader<'a, '_>) -> ASN1Result<()> + Drop,
        requires { TakesContents (TakesTurnsInOrder Ascending F.FnMut f) set_tag self.old }
        ensures { ReadsParts (VisitsInOrder Ascending (CalledAtMut F.FnMut) f) set_tag self.old result self.new }
    {
        self.read_list(TAG_SET, Order::Ascending, f)
    }

    /// Reads a SET OF as `read_set_of` does, into a vector of what the callback returned, in order.
    ///
    /// If there is no memory for the vector, it returns `OutOfMemory`, which is sticky.
    #[inline(always)]
    pub fn collect_set_of<T: Drop, F>(&mut self, f: F) -> ASN1Result<Vec<T>>
    where
        F: FnMut(BERReader<'a, '_>) -> ASN1Result<T> + Drop,
        requires { TakesContents (TakesTurnsInOrder Ascending F.FnMut f) set_tag self.old }
        ensures { ReadsParts (CollectsInOrder Ascending (CalledAtMut F.FnMut) f) set_tag self.old result self.new }
    {
        self.collect_list(TAG_SET, Order::Ascending, f)
    }

    // The outcome of a turn that began with the bytes `before`: its element may not be less than the bound, and becomes it.
    #[inline(always)]
    pub(crate) fn in_order(
        &mut self,
        before: &'a [u8],
        outcome: Outcome<()>,
        bound: &mut Option<&'a [u8]>,
    ) -> Outcome<()>
        requires { IsRest before.now self.old.left }
        ensures { Ordered (bound_bytes bound.old) before.now outcome self.old result (bound_bytes bound.new) self.new }
    {
        if let (Outcome::Matched(_), Some(least)) = (&outcome, *bound) {
            let element = prefix_before(before, self.cursor.left);
            if goes_before(element, least) {
                self.set_place(self.place_before(before.len()), 0);
                return self.fail_outcome(ASN1Error::new(ASN1ErrorKind::Invalid));
            }
            *bound = Some(element);
        }
        outcome
    }
}
