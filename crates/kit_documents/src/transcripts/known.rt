//! The cases that have no transcript among the earlier ones.
ghost use Rattle.std.specs.Prelude.{ℕ, ◌≡◌, List, [], ◌∷◌, ◌++◌, map, IfOk, IfSome, OnOk};
ghost use Rattle.toml.specs.Data.{Data};
ghost use Rattle.toml.specs.View.{view};
ghost use Rattle.document_values.specs.Values.{named};
ghost use Rattle.kit_documents.specs.CaseWords.{field_text};
ghost use Rattle.kit_documents.specs.Transcripts.{case_of, place_where as place_in};
ghost use Rattle.kit_documents.specs.Untold.{place_at, untold_place as untold_place_in, with_place, AreUntold, AreUntold-prop, HasUntold};

use crate::tables::text_said;
use crate::words::names::LONGEST_NAME;
use std::alloc::{AllocError, AllocFailed, Global};
use std::collections::BTreeMap;
use toml::Value;

/// The cases of a document, and the transcripts before one.
#[derive(Drop)]
pub(crate) struct Known<'a> {
    cases: &'a [Value],
    earlier: &'a [Value],
    /// The number of names compared so far by searches of all cases and transcripts.
    looks: usize,
    /// When `looks` reaches this, an index of the cases is built.
    price: usize,
    /// The index: the numbers of the cases without a transcript, by name, if it is kept.
    untold: Option<BTreeMap<&'a str, usize>>,
    ghost kept: { AreUntold untold (map view cases.now) (map view earlier.now) } by { AreUntold-prop untold (map view cases.now) (map view earlier.now) },
}

impl<'a> Known<'a> {
    /// These cases and transcripts, without an index.
    pub(crate) fn of(cases: &'a [Value], earlier: &'a [Value]) -> Known<'a>
        ensures cases { result.cases.now ≡ cases.now }
        ensures earlier { result.earlier.now ≡ earlier.now }
    {
        Known {
            cases,
            earlier,
            looks: 0,
            price: price_of(cases.len()),
            untold: None,
        }
    }

    /// Builds the index if the searches so far took as much time as that does. If there is no memory for it, each
    /// transcript is still found by a search.
    pub(crate) fn keep_where_it_pays(&mut self, alloc: Global)
        ensures cases { self.new.cases.now ≡ self.old.cases.now }
        ensures earlier { self.new.earlier.now ≡ self.old.earlier.now }
    {
        if self.looks < self.price {
            return;
        }
        // it is tried once
        self.price = usize::MAX;
        self.untold = untold_of(alloc, self.cases, self.earlier).unwrap_or(None);
    }

    /// The number of the first case with this name, if it has no transcript yet.
    pub(crate) fn place_of(&self, name: &str) -> Option<usize>
        ensures { result ≡ untold_place_in (map view self.now.cases.now) (map view self.now.earlier.now) name.now }
    {
        match &self.untold {
            Some(untold) => untold.get(name).copied(),
            None => untold_place(self.cases, self.earlier, name),
        }
    }

    /// Adds a transcript of the case with number `place`. `earlier` are all tables, with the added one.
    pub(crate) fn add(&mut self, earlier: &'a [Value], last: &Value, place: usize)
        requires { map view earlier.now ≡ map view self.old.earlier.now ++ view last.now ∷ [] }
        ensures cases { self.new.cases.now ≡ self.old.cases.now }
        ensures earlier { self.new.earlier.now ≡ earlier.now }
    {
        take_out(&mut self.untold, text_said(last, "case"));
        self.looks = self
            .looks
            .saturating_add(place)
            .saturating_add(earlier.len());
        self.earlier = earlier;
    }
}

/// Removes a name from the index, if it is kept.
fn take_out(untold: &mut Option<BTreeMap<&str, usize>>, name: &str)
    ensures { (cases earlier : List Data) (d : Data) → name.now ≡ case_of d → AreUntold untold.old cases earlier → AreUntold untold.new cases (earlier ++ d ∷ []) }
{
    let Some(untold) = untold else {
        return;
    };
    untold.remove(name);
}

/// The number of comparisons that takes as much time as an index of `count` cases: each is placed among the others.
fn price_of(count: usize) -> usize {
    let halvings = usize::BITS - count.leading_zeros();
    count.saturating_mul(halvings as usize)
}

/// An index of the cases without a transcript; none if a name is too long.
fn untold_of<'a>(
    alloc: Global,
    cases: &'a [Value],
    earlier: &[Value],
) -> Result<Option<BTreeMap<&'a str, usize>>, AllocError>
    ensures { IfOk result (λ kept. IfSome kept (λ places. HasUntold places (map view cases.now) (map view earlier.now))) }
{
    let Some(mut places) = places_of(alloc, cases)? else {
        return Ok(None);
    };
    for transcript in earlier {
        places.remove(text_said(transcript, "case"));
    }
    Ok(Some(places))
}

/// The numbers of these cases by name, of the first if several have the same name. There is no index if a name is
/// longer than a document allows: to look that name up could take longer than to search all cases.
fn places_of(alloc: Global, cases: &[Value]) -> Result<Option<BTreeMap<&str, usize>>, AllocError>
    ensures { IfOk result (λ kept. IfSome kept (λ places. HasUntold places (map view cases.now) [])) }
{
    let mut places = BTreeMap::new(alloc);
    for (place, case) in cases.iter().enumerate() {
        let name = text_said(case, "name");
        if name.len() > LONGEST_NAME {
            return Ok(None);
        }
        add_place(&mut places, name, place)?;
    }
    Ok(Some(places))
}

/// Adds the number of a case with this name, if there is none yet.
fn add_place<'a>(
    places: &mut BTreeMap<&'a str, usize>,
    name: &'a str,
    place: usize,
) -> Result<(), AllocFailed<(&'a str, usize)>>
    ensures { OnOk result ((text : List ℕ) → place_at places.new text ≡ with_place (place_at places.old) name.now place text) }
{
    let Some(first) = places.insert(name, place)? else {
        return Ok(());
    };
    places.insert(name, first)?;
    Ok(())
}

/// The number of the first of these cases with the name, if none of these transcripts belongs to it.
fn untold_place(cases: &[Value], earlier: &[Value], name: &str) -> Option<usize>
    ensures { result ≡ untold_place_in (map view cases.now) (map view earlier.now) name.now }
{
    if place_where(earlier, "case", name).is_some() {
        return None;
    }
    place_where(cases, "name", name)
}

/// The number of the first of these tables with this text in this field.
fn place_where(tables: &[Value], key: &str, text: &str) -> Option<usize>
    ensures { result ≡ place_in (λ value. field_text (named key.now value)) text.now (map view tables.now) }
{
    tables
        .iter()
        .position(|value| text == text_said(value, key))
}
