//! The groups of keys of one value, by the value alone.
ghost use Rattle.std.specs.Prelude.{◌≡◌, IfOk, IfSome, None, Some};
ghost use Rattle.scan_values.specs.Val.{Val, bool_val, int_val, text_val};
ghost use Rattle.scan_groups.specs.Cells.{cell_val};
ghost use Rattle.scan_groups.specs.Places.{Learns, known};

use crate::cell::Cell;
use scan_values::NoMemory;
use std::alloc::Global;
use std::collections::BTreeMap;

/// The places of keys of one value that were asked for before. None is made a value, and no text is copied, to look it up.
#[derive(Drop)]
pub(crate) struct Known {
    null: Option<usize>,
    no: Option<usize>,
    yes: Option<usize>,
    numbers: BTreeMap<i64, usize>,
    texts: BTreeMap<String, usize>,
}

impl Known {
    /// None was asked for.
    pub(crate) fn new(alloc: Global) -> Known
        ensures { (v : Val) → known result v ≡ None }
    {
        Known {
            null: None,
            no: None,
            yes: None,
            numbers: BTreeMap::new(alloc),
            texts: BTreeMap::new(alloc),
        }
    }

    fn number(&self, number: i128) -> Option<usize>
        ensures { IfSome result (λ i. known self.now (int_val number) ≡ Some i) }
    {
        match i64::try_from(number) {
            Ok(number) => self.numbers.get(&number).copied(),
            Err(_) => None,
        }
    }

    fn text(&self, text: &str) -> Option<usize>
        ensures { IfSome result (λ i. known self.now (text_val text.now) ≡ Some i) }
    {
        self.texts.get(text).copied()
    }

    fn truth(&self, truth: bool) -> Option<usize>
        ensures { result ≡ known self.now (bool_val truth) }
    {
        if truth { self.yes } else { self.no }
    }

    /// The place of the key of a value, where it is known.
    pub(crate) fn get(&self, cell: Cell) -> Option<usize>
        ensures { IfSome result (λ i. known self.now (cell_val cell.entry) ≡ Some i) }
    {
        match cell {
            Cell::Null => self.null,
            Cell::Truth(truth) => self.truth(truth),
            Cell::Number(number) => self.number(number),
            Cell::Text(text) => self.text(text),
            Cell::Held(_) => None,
        }
    }

    fn learn_truth(&mut self, truth: bool, place: usize)
        ensures { Learns self.old self.new (bool_val truth) place }
    {
        if truth {
            self.yes = Some(place);
        } else {
            self.no = Some(place);
        }
    }

    fn learn_number(&mut self, number: i128, place: usize) -> Result<(), NoMemory>
        ensures { IfOk result (λ _. Learns self.old self.new (int_val number) place) }
    {
        if let Ok(number) = i64::try_from(number) {
            self.numbers.insert(number, place)?;
        }
        Ok(())
    }

    fn learn_text(&mut self, alloc: Global, text: &str, place: usize) -> Result<(), NoMemory>
        ensures { IfOk result (λ _. Learns self.old self.new (text_val text.now) place) }
    {
        let text = String::from_str(alloc, text)?;
        self.texts.insert(text, place)?;
        Ok(())
    }

    /// The key of a value has this place.
    pub(crate) fn learn(&mut self, alloc: Global, cell: Cell, place: usize) -> Result<(), NoMemory>
        ensures { IfOk result (λ _. Learns self.old self.new (cell_val cell.entry) place) }
    {
        match cell {
            Cell::Null => {
                self.null = Some(place);
                Ok(())
            }
            Cell::Truth(truth) => {
                self.learn_truth(truth, place);
                Ok(())
            }
            Cell::Number(number) => self.learn_number(number, place),
            Cell::Text(text) => self.learn_text(alloc, text, place),
            Cell::Held(_) => Ok(()),
        }
    }
}
