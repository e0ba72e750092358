//! The document of some bytes.
ghost use Rattle.std.specs.Prelude.{IfOk, IsErrOf};
ghost use Rattle.toml.specs.Data.{Data, table};
ghost use Rattle.toml.specs.View.{table_view};
ghost use Rattle.document_values.specs.Values.{IsDocument};

use std::alloc::Global;
use toml::Table;

/// Why bytes are not read as a document.
#[derive(Clone, Copy, Debug, PartialEq, Eq)]
pub enum DocumentFault {
    /// They are not UTF-8, or not a TOML document.
    NoDocument,
    /// An allocation failed.
    Memory,
}

/// Returns the document of these bytes.
pub fn read_document(alloc: Global, text: &[u8]) -> Result<Table, DocumentFault>
    ensures said { IfOk result (λ fields. IsDocument text.now (table (table_view fields))) }
    ensures none { IsErrOf result DocumentFault.NoDocument → ¬ ((document : Data) × IsDocument text.now document) }
{
    match toml::table_from_slice(alloc, text) {
        Ok(document) => Ok(document),
        Err(error) if error.is_memory() => Err(DocumentFault::Memory),
        Err(_) => Err(DocumentFault::NoDocument),
    }
}
