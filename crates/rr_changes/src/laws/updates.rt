//! Updates, and where operations change cells.
ghost use Rattle.rr_changes.specs.UpdateLaws.{ReplicasGoOn, OperationsGoOn, OperationsOnlyAdd, UpdateMakesTheCells, UpdateMakesTheOutcome, UpdatesBringAll, UpdatesMakeTheLast, PutChangesItsCells, JoinChangesItsCell, OperationChangesItsPlace, HeldCellsChangeNothing};

/// What operations need of a replica in order to only add holds for each replica, and after each
/// operation.
pub fn replicas_go_on()
    ensures replicas { ReplicasGoOn }
    ensures operations { OperationsGoOn }
{}

/// Operations only add, so an update joined to the earlier cells makes those of now. Updates
/// written one after the other bring all, joined in any order and any number of times.
pub fn updates_bring_all()
    ensures add { OperationsOnlyAdd }
    ensures cells { UpdateMakesTheCells }
    ensures outcome { UpdateMakesTheOutcome }
    ensures all { UpdatesBringAll }
    ensures last { UpdatesMakeTheLast }
{}

/// An operation changes only cells of its key, in the slots of its time; a joined cell that is
/// already held changes none.
pub fn operations_change_their_places()
    ensures puts { PutChangesItsCells }
    ensures joins { JoinChangesItsCell }
    ensures places { OperationChangesItsPlace }
    ensures held { HeldCellsChangeNothing }
{}
