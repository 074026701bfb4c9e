// Laws of stamped writes. Each is a function that does nothing, whose clause is the law.
ghost use Rattle.std.specs.Prelude.{List};
ghost use Rattle.serde_json.specs.Data.{Data};
ghost use Rattle.xds_resource.specs.declared.types.TypeName.{TypeName};
ghost use Rattle.xds_resource.specs.PerType.{PerType};
ghost use Rattle.xds_resource.specs.Writes.{StampedWrite};
ghost use Rattle.xds_message.specs.Batches.{SpellsOneBatch, IsBatchSpelledByItsObject, IsBatchOfItsWrites};
ghost use Rattle.xds_message.specs.StampedWrites.{SpellsOneWrite, IsWriteSpelledByItsObject};

/// A value spells one stamped write at most.
pub fn a_value_spells_one_write()
    ensures { (d : Data) → SpellsOneWrite d }
{}

/// The object that is written for a stamped write spells it.
pub fn a_write_is_spelled_by_its_object()
    ensures { (t : TypeName) (w : StampedWrite) → IsWriteSpelledByItsObject t w }
{}

/// A value spells one batch at most.
pub fn a_value_spells_one_batch()
    ensures { (d : Data) → SpellsOneBatch d }
{}

/// The object that is written for a batch spells it.
pub fn a_batch_is_spelled_by_its_object()
    ensures { (b : PerType (List StampedWrite)) → IsBatchSpelledByItsObject b }
{}

/// The writes of a batch, in order, come to that batch.
pub fn a_batch_is_its_writes()
    ensures { (b : PerType (List StampedWrite)) → IsBatchOfItsWrites b }
{}
