//! The laws of schemas: functions with empty bodies, whose contracts state them.
ghost use Rattle.std.specs.Prelude.{ℕ};
ghost use Rattle.rr_schema.specs.Schema.{Layout, IsLayout, choice};
ghost use Rattle.rr_schema.specs.Choice.{IsChoice};
ghost use Rattle.rr_schema.specs.SchemaBytes.{BytesTellTheSchema};
ghost use Rattle.rr_schema.specs.Added.{OneIsAdded, OneLessIsLayout, AdditionsAreFound};

/// The bytes of a schema determine the schema, whatever follows them.
pub fn bytes_tell_the_schema()
    ensures { BytesTellTheSchema }
{}

/// The archive that answers a fetch is the one with the greatest span that is not above the
/// resolution, else the one with the least span.
pub fn choice_is_the_rule()
    ensures { (s : Layout) (resolution : ℕ) → IsLayout s
        → IsChoice s resolution (choice s resolution) }
{}

/// At most one archive of a schema is the one that it adds to another, and without it a schema is
/// within the limits.
pub fn one_archive_is_added()
    ensures one { OneIsAdded }
    ensures less { OneLessIsLayout }
{}

/// The bytes of a schema's archives tell which archive a later schema added.
pub fn bytes_tell_the_addition()
    ensures { AdditionsAreFound }
{}
