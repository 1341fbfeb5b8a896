//! The TOML text of a configuration.

ghost use Rattle.std.specs.Prelude.{◌≡◌, Err, false};
ghost use Rattle.std.specs.Str.{is_utf8};
ghost use Rattle.toml.specs.View.{table_view};
ghost use Rattle.rr_text.specs.Results.{GivesUnless};
ghost use Rattle.rr_schema.specs.declared.fault.SchemaFault.TheVariants.{BadToml};
ghost use Rattle.rr_config.specs.Document.{members_of};

use crate::fault::ConfigFault;
use rr_schema::SchemaFault;
use std::alloc::Global;
use std::str;
use toml::Table;

/// The table that a text writes. `BadToml` if the text isn't UTF-8 or isn't TOML.
pub(crate) fn table_of(alloc: Global, text: &[u8]) -> Result<Table, ConfigFault>
    ensures read { GivesUnless ConfigFault.Memory table_view result (members_of text.now) }
    ensures foreign { is_utf8 text.now ≡ false → result ≡ Err (ConfigFault.Schema BadToml) }
{
    let Ok(text) = str::from_utf8(text) else {
        return Err(ConfigFault::Schema(SchemaFault::BadToml));
    };
    match toml::table_from_str(alloc, text) {
        Ok(table) => Ok(table),
        Err(error) => {
            if error.is_memory() {
                return Err(ConfigFault::Memory);
            }
            Err(ConfigFault::Schema(SchemaFault::BadToml))
        }
    }
}
