ghost use Rattle.std.specs.Prelude.{◌≡◌, ℕ, ◌+◌, ◌*◌, ◌%◌, ◌^◌, ◌⊎◌, ◌<◌, ◌≤◌, ◌↔◌, ◌&&◌, All, [], length, slice_get, slice_set, slice_index, IfOk, IsTrue};
ghost use Rattle.std.specs.List.{list_any};
ghost use Rattle.std.specs.List.Sorted.{IsStrictlyIncreasing};
ghost use Rattle.lis_bits.specs.Rows.{get, SetsBits};
ghost use Rattle.lis_bits.specs.Bytes.{bits_bytes};
ghost use Rattle.lis_ext.specs.Numbers.{differs, has_number, numbers_where};

use crate::lists::Lists;
use crate::{by_list, tables};
use lis_bits::{Rows, and_row, copy_row, within};
use lis_limits::{MAX_DESCRIPTION, V3_MAX_FILES, V3_MAX_PROPS};
use std::alloc::{AllocError, Global};
use std::marker::Model;

/// The set of numbers of each file, how many files have each number, and marks of the numbers that a file got or lost. All memory is
/// allocated by `new`.
#[derive(Drop)]
pub struct Ext {
    props: u32,
    files: u32,
    // There are rows of all numbers, or of none: row p has bit i if file i has the number p.
    kept: u32,
    rows: Rows,
    // The numbers of each file, in rising order.
    lists: Lists,
    // How many files have each number.
    counts: Vec<u32>,
    // One row, of the numbers that are marked.
    marks: Rows,
}

impl Model for Ext {
    ghost use Rattle.lis_ext.specs.Ext.{Ext as Sets};

    ghost Value = { Sets };

    ghost use Rattle.lis_ext.specs.Inside.{seen, IsSoundExt};

    ghost view = { λ e. seen e.lists e.rows e.marks e.props };

    ghost invariant = { λ e. IsSoundExt e.lists e.counts.items e.rows e.marks e.props e.files e.kept };
}

impl Ext {
    ghost use Rattle.lis_ext.specs.Ext.{has, set_of, count_of, count_where, empty_ext, with_marks, IsKept};

    /// Empty sets of `files` files. There is no row of bits for a number: what is asked of all files that have it takes a look at each file.
    pub fn new(alloc: Global, props: u32, files: u32) -> Result<Ext, AllocError>
        requires whole_words { files % 64 ≡ 0 }
        requires whole_marks { props % 64 ≡ 0 }
        requires few_props { props ≤ V3_MAX_PROPS }
        requires few_files { files ≤ V3_MAX_FILES }
        ensures { IfOk result (λ made. made ≡ empty_ext props files) }
    {
        Ext::with_kept(alloc, props, files, 0)
    }

    /// The same with a row of bits for each number, which takes `props` times `files` bits.
    pub fn with_rows(alloc: Global, props: u32, files: u32) -> Result<Ext, AllocError>
        requires whole_words { files % 64 ≡ 0 }
        requires whole_marks { props % 64 ≡ 0 }
        requires few_props { props ≤ V3_MAX_PROPS }
        requires few_files { files ≤ V3_MAX_FILES }
        requires few_bits { props * files ≤ 2 ^ 27 }
        ensures { IfOk result (λ made. made ≡ empty_ext props files) }
    {
        Ext::with_kept(alloc, props, files, props)
    }

    // Empty sets, with rows for so many numbers.
    fn with_kept(alloc: Global, props: u32, files: u32, kept: u32) -> Result<Ext, AllocError>
        requires whole_words { files % 64 ≡ 0 }
        requires whole_marks { props % 64 ≡ 0 }
        requires few_props { props ≤ V3_MAX_PROPS }
        requires few_files { files ≤ V3_MAX_FILES }
        requires kept { (kept ≡ 0) ⊎ (kept ≡ props) }
        requires few_bits { kept * files ≤ 2 ^ 27 }
        ensures { IfOk result (λ made. made ≡ empty_ext props files) }
    {
        Ok(Ext {
            props,
            files,
            kept,
            rows: Rows::new(alloc, kept, files)?,
            lists: Lists::new(alloc, files)?,
            counts: vec![in alloc; 0; props as usize]?,
            marks: Rows::new(alloc, 1, props)?,
        })
    }

    /// Replaces a file's set, and marks the numbers that are in one of the old and the new set and not in both. The contract
    /// also says what each `Ext` keeps.
    pub fn set_file(&mut self, file: u32, new: &[u32])
        requires file { file < length self.old.sets }
        requires few { length new.now ≤ MAX_DESCRIPTION }
        requires new_rises { IsStrictlyIncreasing new.now }
        requires new_in { All (λ number. number < self.old.props) new.now }
        ensures kept { IsKept self.old }
        ensures props { self.new.props ≡ self.old.props }
        ensures sets { self.new.sets ≡ slice_set self.old.sets file new.now }
        ensures marks { self.new.marks ≡ with_marks self.old (differs (set_of self.old file) new.now) }
        ensures edits { self.new.edits
            ≤ self.old.edits + length (numbers_where self.old.props (differs (set_of self.old file) new.now)) }
        ensures no_fewer { self.old.edits ≤ self.new.edits }
    {
        let old = self.lists.numbers(file);
        tables::lose(&mut self.counts, &mut self.marks, self.props, old, new);
        tables::gain(&mut self.counts, &mut self.marks, self.props, new, old);
        tables::replace_bits(&mut self.rows, self.kept, self.files, file, old, new);
        self.lists.set(file, new);
    }

    /// How many numbers there are. The contract also says what each `Ext` keeps.
    pub fn props(&self) -> u32
        ensures props { result ≡ self.now.props }
        ensures kept { IsKept self.now }
    {
        self.props
    }

    /// How many files there are.
    pub fn files(&self) -> u32
        ensures { result ≡ length self.now.sets }
    {
        self.files
    }

    /// Whether a file has a number.
    pub fn has(&self, prop: u32, file: u32) -> bool
        requires prop { prop < self.now.props }
        requires file { file < length self.now.sets }
        ensures { result ≡ has self.now prop file }
    {
        by_list::is_among(self.lists.numbers(file), prop)
    }

    /// The numbers of a file, in rising order. The contract also says what each `Ext` keeps.
    pub fn numbers(&self, file: u32) -> &[u32]
        requires { file < length self.now.sets }
        ensures numbers { result.now ≡ set_of self.now file }
        ensures few { length result.now ≤ MAX_DESCRIPTION }
        ensures rise { IsStrictlyIncreasing result.now }
        ensures in_range { All (λ p. p < self.now.props) result.now }
        ensures kept { IsKept self.now }
    {
        self.lists.numbers(file)
    }

    /// How many files have a number.
    pub fn count(&self, prop: u32) -> u32
        requires { prop < self.now.props }
        ensures { result ≡ count_of self.now.sets prop }
    {
        self.counts[prop as usize]
    }

    /// Whether some file has a number.
    pub fn is_had(&self, prop: u32) -> bool
        requires { prop < self.now.props }
        ensures { result ≡ list_any (λ set. has_number set prop) self.now.sets }
    {
        self.counts[prop as usize] > 0
    }

    /// Counts for each number how many of the files in row 0 have it, and returns how many files are in the row.
    pub fn count_among(&self, found: &Rows, counts: &mut [u32]) -> u32
        requires row { 0 < length found.now.rows }
        requires bits { found.now.bits ≡ length self.now.sets }
        requires room { length counts.old ≡ self.now.props }
        ensures counts { (p : ℕ) → p < self.now.props
            → slice_index counts.new p ≡ count_where self.now (get found.now 0) p }
        ensures found { result ≡ length (numbers_where (length self.now.sets) (get found.now 0)) }
    {
        counts.fill(0);
        let mut many = 0;
        let mut start = 0;
        for _ in 0..self.files {
            match found.next(0, start) {
                None => return many,
                Some(file) => {
                    tables::count_all(counts, self.lists.numbers(file));
                    many += 1;
                    start = file + 1;
                }
            }
        }
        many
    }

    /// Whether each file in row 0 has a number.
    pub fn all_have(&self, prop: u32, found: &Rows) -> bool
        requires prop { prop < self.now.props }
        requires row { 0 < length found.now.rows }
        requires bits { found.now.bits ≡ length self.now.sets }
        ensures { IsTrue result
            ↔ ((i : ℕ) → i < length self.now.sets → IsTrue (get found.now 0 i) → IsTrue (has self.now prop i)) }
    {
        if prop < self.kept {
            return within(found, 0, &self.rows, prop);
        }
        by_list::all_have(&self.lists, self.files, prop, found)
    }

    /// Keeps in a row only the files that have a number.
    pub fn and_row(&self, prop: u32, to: &mut Rows, row: u32)
        requires prop { prop < self.now.props }
        requires bits { to.old.bits ≡ length self.now.sets }
        requires row { row < length to.old.rows }
        ensures { SetsBits to.old to.new (length to.old.rows) to.old.bits row (λ bit. get to.old row bit && has self.now prop bit) }
    {
        if prop < self.kept {
            and_row(&self.rows, prop, to, row);
            return;
        }
        by_list::and_row(&self.lists, self.files, prop, to, row);
    }

    /// Writes the files that have a number into a row.
    pub fn copy_row(&self, prop: u32, to: &mut Rows, row: u32)
        requires prop { prop < self.now.props }
        requires bits { to.old.bits ≡ length self.now.sets }
        requires row { row < length to.old.rows }
        ensures { SetsBits to.old to.new (length to.old.rows) to.old.bits row (has self.now prop) }
    {
        if prop < self.kept {
            copy_row(&self.rows, prop, to, row);
            return;
        }
        by_list::copy_row(&self.lists, self.files, prop, to, row);
    }

    /// The k-th marked number in rising order, counted from 0.
    pub fn changed(&self, k: u32) -> Option<u32>
        ensures { result ≡ slice_get self.now.marks k }
    {
        tables::true_bit(&self.marks, self.props, k)
    }

    /// Clears all marks.
    pub fn settle(&mut self)
        ensures { self.new ≡ record self.old { marks = [] } }
    {
        self.marks.fill(0, false);
    }

    /// How many edits of the rows there were since they were made, none if there are no rows: at most as many as the times that a
    /// file got or lost a number. The count stays at its largest value, 2^64 - 1.
    pub fn edits(&self) -> u64
        ensures { result ≡ self.now.edits }
    {
        self.rows.edits()
    }

    /// Writes the files that have a number as bytes: bit i % 8 of byte i / 8, bit 0 the lowest, says whether file i has it.
    pub fn row_bytes(&self, prop: u32, buf: &mut [u8])
        requires prop { prop < self.now.props }
        requires room { 8 * length buf.old ≡ length self.now.sets }
        ensures { buf.new ≡ bits_bytes (length buf.old) (has self.now prop) }
    {
        if prop < self.kept {
            self.rows.row_bytes(prop, buf);
            return;
        }
        by_list::write_bits(&self.lists, prop, buf);
    }

    /// Whether the bytes are those of the files that have a number, as `row_bytes` writes them.
    pub fn has_row_bytes(&self, prop: u32, bytes: &[u8]) -> bool
        requires prop { prop < self.now.props }
        requires room { 8 * length bytes.now ≡ length self.now.sets }
        ensures { IsTrue result ↔ bytes.now ≡ bits_bytes (length bytes.now) (has self.now prop) }
    {
        if prop < self.kept {
            return self.rows.has_bytes(prop, bytes);
        }
        by_list::has_bits(&self.lists, prop, bytes)
    }
}
