// A walk along packed rows.
ghost use Rattle.std.specs.Prelude.{◌≡◌, ◌<◌, ◌+◌, length, IfOk, All, FitsSigned};
ghost use Rattle.std.specs.Int.{w128};
ghost use Rattle.mat_int.specs.Matrix.{row_of};

use crate::rows::PackedRows;
use crate::unpacking::take_numbers;
use std::alloc::{AllocError, Global};
use std::marker::Model;

/// A walk along the rows, from the first on. Its memory is that of one row. Seen as all rows, the position of the next one, and the row that it stands on.
#[derive(Drop)]
pub struct RowWalk<'a> {
    rows: &'a PackedRows,
    next: usize,
    rest: &'a [u8],
    row: Vec<i128>,
}

impl<'a> Model for RowWalk<'a> {
    ghost use Rattle.packed_rows.specs.Walk.{Walk};

    ghost Value = { Walk };

    ghost use Rattle.packed_rows.specs.Standing.{StandsBefore};

    ghost view = { λ w. record { rows = w.rows.now; next = w.next; row = w.row.items } };

    ghost invariant = { StandsBefore };
}

impl PackedRows {
    /// A walk that stands before the first row. It takes the memory of one row, all that it ever uses.
    pub fn walk(&self, alloc: Global) -> Result<RowWalk<'_>, AllocError>
        ensures rows { IfOk result (λ w. w.rows ≡ self.now) }
        ensures next { IfOk result (λ w. w.next ≡ 0) }
    {
        let row = vec![in alloc; 0; self.cols()]?;
        Ok(RowWalk {
            rows: self,
            next: 0,
            rest: self.bytes(),
            row,
        })
    }
}

impl RowWalk<'_> {
    /// Goes on to the next row.
    pub fn step(&mut self)
        requires { self.old.next < length self.old.rows.rows }
        ensures row { self.new.row ≡ row_of self.old.rows self.old.next }
        ensures next { self.new.next ≡ self.old.next + 1 }
        ensures rows { self.new.rows ≡ self.old.rows }
    {
        let _count = self.rows.rows();
        self.rest = take_numbers(self.rest, &mut self.row);
        self.next += 1;
    }

    /// The number of all rows.
    pub fn rows(&self) -> usize
        ensures { result ≡ length self.now.rows.rows }
    {
        self.rows.rows()
    }

    /// The row that it stands on, once it has gone on to one.
    pub fn row(&self) -> &[i128]
        ensures value { result.now ≡ self.now.row }
        ensures len { length result.now ≡ self.now.rows.cols }
        ensures word { All (FitsSigned w128) result.now }
    {
        &self.row
    }

    /// Goes back before the first row.
    pub fn rewind(&mut self)
        ensures next { self.new.next ≡ 0 }
        ensures rows { self.new.rows ≡ self.old.rows }
        ensures row { self.new.row ≡ self.old.row }
    {
        self.next = 0;
        self.rest = self.rows.bytes();
    }
}
