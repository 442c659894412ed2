//! The TOML document that bytes are.
ghost use Rattle.std.specs.Prelude.{◌≡◌, ◌⊎◌, Some, None, IfOk, IfErr};
ghost use Rattle.toml.specs.View.{table_view};
ghost use Rattle.design_files.specs.Document.{document_of};

use number_text::TextFault;
use std::alloc::Global;
use toml::Table;

/// The document that the bytes are.
pub fn read_document(alloc: Global, bytes: &[u8]) -> Result<Table, TextFault>
    ensures ok { IfOk result (λ t. document_of bytes.now ≡ Some (table_view t)) }
    ensures err { IfErr result (λ fault. (fault ≡ TextFault.Memory)
        ⊎ ((fault ≡ TextFault.NotToml) × (document_of bytes.now ≡ None))) }
{
    let Ok(text) = str::from_utf8(bytes) else {
        return Err(TextFault::NotToml);
    };
    match toml::table_from_str(alloc, text) {
        Ok(table) => Ok(table),
        Err(e) => {
            if e.is_memory() {
                Err(TextFault::Memory)
            } else {
                Err(TextFault::NotToml)
            }
        }
    }
}
