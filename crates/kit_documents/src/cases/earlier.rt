//! The cases before one. It may not have the name of any of them.
ghost use Rattle.std.specs.List.{list_any};
ghost use Rattle.std.specs.Prelude.{◌≡◌, List, [], ◌∷◌, ◌++◌, map, OnErr, OnOk};
ghost use Rattle.toml.specs.Data.{Data, same_key};
ghost use Rattle.toml.specs.View.{view};
ghost use Rattle.kit_documents.specs.Cases.{case_name};
ghost use Rattle.kit_documents.specs.NameSets.{AreNames, AreNames-prop};

use crate::tables::text_said;
use std::alloc::{AllocFailed, Global};
use std::collections::BTreeSet;
use toml::Value;

/// Up to this number of cases, searching all of them for a name is faster than keeping a set of names. It affects only
/// speed.
const FEW_CASES: usize = 32;

/// The cases before one: their tables and, if it is kept, the set of their names.
#[derive(Drop)]
pub(crate) struct Earlier<'a> {
    tables: &'a [Value],
    names: Option<BTreeSet<&'a str>>,
    ghost named: { AreNames names (map view tables.now) } by { AreNames-prop names (map view tables.now) },
}

impl<'a> Earlier<'a> {
    /// No cases yet. A set of names is kept if there will be many, `count` in all.
    pub(crate) fn none(alloc: Global, count: usize) -> Earlier<'a>
        ensures { result.tables.now ≡ [] }
    {
        if count <= FEW_CASES {
            return Earlier::of(&[]);
        }
        Earlier {
            tables: &[],
            names: Some(BTreeSet::new(alloc)),
        }
    }

    /// These cases, all of which are searched for a name.
    pub(crate) fn of(tables: &'a [Value]) -> Earlier<'a>
        ensures { result.tables.now ≡ tables.now }
    {
        Earlier {
            tables,
            names: None,
        }
    }

    /// Whether one of the cases has the name.
    pub(crate) fn have(&self, name: &str) -> bool
        ensures { result ≡ list_any (λ other. same_key name.now (case_name other)) (map view self.now.tables.now) }
    {
        match &self.names {
            Some(names) => names.contains(name),
            None => is_taken(self.tables, name),
        }
    }

    /// Adds the case with this table. `tables` are all tables, with the added one.
    pub(crate) fn add(
        &mut self,
        tables: &'a [Value],
        last: &'a Value,
    ) -> Result<(), AllocFailed<&'a str>>
        requires { map view tables.now ≡ map view self.old.tables.now ++ view last.now ∷ [] }
        ensures { OnOk result (self.new.tables.now ≡ tables.now) }
    {
        keep(&mut self.names, text_said(last, "name"))?;
        self.tables = tables;
        Ok(())
    }
}

/// Adds a name to the set, if one is kept.
fn keep<'a>(
    names: &mut Option<BTreeSet<&'a str>>,
    name: &'a str,
) -> Result<(), AllocFailed<&'a str>>
    ensures one_more { OnOk result ((cases : List Data) (d : Data) → name.now ≡ case_name d → AreNames names.old cases → AreNames names.new (cases ++ d ∷ [])) }
    ensures as_before { OnErr result ((cases : List Data) → AreNames names.old cases → AreNames names.new cases) }
{
    let Some(names) = names else {
        return Ok(());
    };
    names.insert(name)?;
    Ok(())
}

/// Whether one of these cases has the name.
fn is_taken(earlier: &[Value], name: &str) -> bool
    ensures { result ≡ list_any (λ other. same_key name.now (case_name other)) (map view earlier.now) }
{
    earlier.iter().any(|other| name == text_said(other, "name"))
}
