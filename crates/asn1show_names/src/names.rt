//! The search of a name in the order of the object identifiers.
ghost use Rattle.std.specs.Prelude.{◌≡◌, ◌↔◌, IsTrue};
ghost use Rattle.yasna_base.specs.Order.{octets_cmp};
ghost use Rattle.std.specs.Ordering.{is_lt};
ghost use Rattle.asn1show_names.specs.Names.{rows_of, IsFound, IsSorted};

use crate::table::TABLES;
use std::alloc::{AllocError, Global};
use std::cmp::Ordering;
use yasna_base::bytes::order::compare_octets;

// An object identifier with its dots, and its name.
type Row = (&'static str, &'static str);

/// Names of object identifiers.
#[derive(Drop)]
pub struct Names {
    rows: Vec<Row>,
}

// The order of the object identifier of a row and another one.
fn compare_row(row: &Row, oid: &[u8]) -> Ordering
    ensures { result ≡ octets_cmp row.now.0.now oid.now }
{
    compare_octets(row.0.as_bytes(), oid)
}

// Whether a row is before another one.
fn is_before(row: &Row, next: &Row) -> bool
    ensures { result ≡ is_lt (octets_cmp row.now.0.now next.now.0.now) }
{
    compare_row(row, next.0.as_bytes()).is_lt()
}

// The name of an object identifier in rows that are sorted.
fn find_name(rows: &[Row], oid: &[u8]) -> Option<&'static str>
    ensures { IsFound rows.now oid.now result }
{
    match rows.binary_search_by(|row| compare_row(row, oid)) {
        Ok(index) => Some(rows[index].1),
        Err(_) => None,
    }
}

// Appends the rows of a table.
fn push_rows(rows: &mut Vec<Row>, table: &'static str) -> Result<(), AllocError> {
    for line in table.lines() {
        if let Some(row) = line.split_once(' ') {
            rows.push(row)?;
        }
    }
    Ok(())
}

impl Names {
    /// All names that are known. `Err` says that memory ran out.
    pub fn new(alloc: Global) -> Result<Names, AllocError> {
        let mut rows = Vec::new(alloc);
        for table in TABLES {
            push_rows(&mut rows, table)?;
        }
        Ok(Names { rows })
    }

    /// The name of an object identifier that is written with dots.
    ///
    /// None says that no name of it is known, if the names are sorted, which `is_sorted` decides.
    pub fn find(&self, oid: &[u8]) -> Option<&'static str>
        ensures { IsFound (rows_of self.now) oid.now result }
    {
        find_name(self.rows.as_slice(), oid)
    }

    /// Whether the names are in the order of the octets of their object identifiers, each of which is there once.
    pub fn is_sorted(&self) -> bool
        ensures { IsTrue result ↔ IsSorted (rows_of self.now) }
    {
        self.rows.is_sorted_by(|row, next| is_before(row, next))
    }
}
