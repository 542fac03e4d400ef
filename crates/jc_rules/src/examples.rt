//! Examples, as laws. Each function does nothing: its contract is one event with the states before and after
//! and its trace, an event that has no derivation, or a whole schedule with the states at its start and its end.

ghost use Rattle.jc_rules.specs.Examples.Registers.{FirstAssignment, KeysOfDocument, ValuesOfRegister, VariableGoesOn, RegisterDeleted, LaterAssignment, ConcurrentAssignment, ValuesOfBoth, KeysPastDeleted, AssignmentOfDocument};
ghost use Rattle.jc_rules.specs.Examples.Maps.{FirstMap, AssignmentOverMap, MapOverAssignment, ValuesUnderMap, KeysOfInnerMap, MapOfTwoDeleted, NothingDeleted};
ghost use Rattle.jc_rules.specs.Examples.Lists.{FirstList, InsertAtHead, InsertAfterElement, DeleteElement, IndexPastTombstone, WholeListDeleted, InsertOfMap};
ghost use Rattle.jc_rules.specs.Examples.Inserts.{SendsMade, YieldEnds, ReceivesOffered, TakesOffered, ReceivesOwn, AppliesReceived, ConcurrentInsert, InsertBeforeLesser, InsertLater};
ghost use Rattle.jc_rules.specs.Examples.Deletions.{MapDeletion, AssignmentInDeletedMap, ListDeletion, ListAfterDeletion};
ghost use Rattle.jc_rules.specs.Examples.Stuck.{SendBeforeYield, RunAtYield, DoneTooEarly, ApplyTwice, ApplyUnreceived, RunPastScript, DonePastScript, DependencyMissing, IndexInNothing, IndexInMap, IndexPastEnd, VariableUnbound, KeysOfNothing, ValuesOfNothing, InsertInNothing, AssignmentToNames, KeyOfHead, KeyTooDeep, KeysOfRegister, KeysInNothing, ValuesInNothing, KeysBelowRegister, FromNobody, ByNobody, OfNobody, TakeUnoffered, TakeInFirst, TakeFromNobody};
ghost use Rattle.jc_rules.specs.Examples.Schedules.{InsertsMeet, MapDeletionMeets, ListDeletionMeets};

/// One assignment on a fresh replica.
pub fn first_assignment()
    ensures { FirstAssignment }
{}

/// The keys of the document where one has a value.
pub fn keys_of_document()
    ensures { KeysOfDocument }
{}

/// The values of a register, each with its operation's identifier.
pub fn values_of_register()
    ensures { ValuesOfRegister }
{}

/// A variable's cursor goes one key further, and the variable is bound anew.
pub fn variable_goes_on()
    ensures { VariableGoesOn }
{}

/// A register is deleted: it stays, empty.
pub fn register_deleted()
    ensures { RegisterDeleted }
{}

/// A received assignment that depends on an earlier one takes its place.
pub fn later_assignment()
    ensures { LaterAssignment }
{}

/// A value that was assigned elsewhere at the same time: both stay, by their identifiers.
pub fn concurrent_assignment()
    ensures { ConcurrentAssignment }
{}

/// The values of a register with two of them, by their identifiers.
pub fn values_of_both()
    ensures { ValuesOfBoth }
{}

/// The keys of the document where one was deleted: its presence set is empty, and it is passed over.
pub fn keys_past_deleted()
    ensures { KeysPastDeleted }
{}

/// A value assigned as the whole document.
pub fn assignment_of_document()
    ensures { AssignmentOfDocument }
{}

/// A map assigned on a fresh replica.
pub fn first_map()
    ensures { FirstMap }
{}

/// A value assigned where a map is: the map stays.
pub fn assignment_over_map()
    ensures { AssignmentOverMap }
{}

/// A map assigned where a value is: the register is emptied.
pub fn map_over_assignment()
    ensures { MapOverAssignment }
{}

/// The values of an emptied register.
pub fn values_under_map()
    ensures { ValuesUnderMap }
{}

/// The keys of a map inside the document.
pub fn keys_of_inner_map()
    ensures { KeysOfInnerMap }
{}

/// A map with two keys is deleted: the lesser key is cleared first.
pub fn map_of_two_deleted()
    ensures { MapOfTwoDeleted }
{}

/// A key is deleted below maps that aren't there: they are made, and no identifier is added.
pub fn nothing_deleted()
    ensures { NothingDeleted }
{}

/// A list assigned as the whole document.
pub fn first_list()
    ensures { FirstList }
{}

/// An insert into an empty list.
pub fn insert_at_head()
    ensures { InsertAtHead }
{}

/// An insert after the last element.
pub fn insert_after_element()
    ensures { InsertAfterElement }
{}

/// An element is deleted: it stays linked.
pub fn delete_element()
    ensures { DeleteElement }
{}

/// A variable bound past a deleted element.
pub fn index_past_tombstone()
    ensures { IndexPastTombstone }
{}

/// A whole list is deleted: its head and its elements are cleared along the links.
pub fn whole_list_deleted()
    ensures { WholeListDeleted }
{}

/// A map inserted as an element of a list.
pub fn insert_of_map()
    ensures { InsertOfMap }
{}

/// A replica offers what it has made.
pub fn sends_made()
    ensures { SendsMade }
{}

/// A yield ends.
pub fn yield_ends()
    ensures { YieldEnds }
{}

/// A replica takes what another one offers.
pub fn receives_offered()
    ensures { ReceivesOffered }
{}

/// One of the operations that another replica offers is received.
pub fn takes_offered()
    ensures { TakesOffered }
{}

/// A replica takes what it offers itself.
pub fn receives_own()
    ensures { ReceivesOwn }
{}

/// A received operation is applied.
pub fn applies_received()
    ensures { AppliesReceived }
{}

/// An insert that passes a greater neighbour.
pub fn concurrent_insert()
    ensures { ConcurrentInsert }
{}

/// An insert that comes before a lesser neighbour.
pub fn insert_before_lesser()
    ensures { InsertBeforeLesser }
{}

/// A map is deleted elsewhere: what was assigned inside meanwhile stays.
pub fn map_deletion()
    ensures { MapDeletion }
{}

/// An assignment made elsewhere inside a map that was deleted here: the map is there again.
pub fn assignment_in_deleted_map()
    ensures { AssignmentInDeletedMap }
{}

/// An insert made after one of another replica was applied: it comes before that one.
pub fn insert_later()
    ensures { InsertLater }
{}

/// A list is deleted elsewhere, by a replica that hadn't seen it: it stays.
pub fn list_deletion()
    ensures { ListDeletion }
{}

/// A list assigned elsewhere under a key that was deleted here.
pub fn list_after_deletion()
    ensures { ListAfterDeletion }
{}

/// Two replicas insert at one place and exchange their elements: both end with one document.
pub fn inserts_meet()
    ensures { InsertsMeet }
{}

/// A map is deleted by one replica while the other assigns inside: both end with one document.
pub fn map_deletion_meets()
    ensures { MapDeletionMeets }
{}

/// A key is deleted by one replica while the other assigns a list there.
pub fn list_deletion_meets()
    ensures { ListDeletionMeets }
{}

/// Stuck: a send where the next command is no yield.
pub fn send_before_yield()
    ensures { SendBeforeYield }
{}

/// Stuck: a command is to run where the next one is a yield.
pub fn run_at_yield()
    ensures { RunAtYield }
{}

/// Stuck: a yield is to end before any of its events.
pub fn done_too_early()
    ensures { DoneTooEarly }
{}

/// Stuck: an operation is to be applied again.
pub fn apply_twice()
    ensures { ApplyTwice }
{}

/// Stuck: an operation is to be applied that was not received.
pub fn apply_unreceived()
    ensures { ApplyUnreceived }
{}

/// Stuck: a command is to run after the last one.
pub fn run_past_script()
    ensures { RunPastScript }
{}

/// Stuck: a yield is to end after the last command.
pub fn done_past_script()
    ensures { DonePastScript }
{}

/// Stuck: an operation is to be applied before one that it depends on.
pub fn dependency_missing()
    ensures { DependencyMissing }
{}

/// Stuck: an index where there is nothing yet.
pub fn index_in_nothing()
    ensures { IndexInNothing }
{}

/// Stuck: an index under a key that has nothing.
pub fn index_in_map()
    ensures { IndexInMap }
{}

/// Stuck: an index past the end of a list.
pub fn index_past_end()
    ensures { IndexPastEnd }
{}

/// Stuck: a variable that is not bound.
pub fn variable_unbound()
    ensures { VariableUnbound }
{}

/// Stuck: the keys of a document without a map.
pub fn keys_of_nothing()
    ensures { KeysOfNothing }
{}

/// Stuck: the values of a document without a register.
pub fn values_of_nothing()
    ensures { ValuesOfNothing }
{}

/// Stuck: an insert after a key that is in no list.
pub fn insert_in_nothing()
    ensures { InsertInNothing }
{}

/// Stuck: an assignment to what is no cursor.
pub fn assignment_to_names()
    ensures { AssignmentToNames }
{}

/// Stuck: a key of a list's head.
pub fn key_of_head()
    ensures { KeyOfHead }
{}

/// Stuck: a key below a path of 512 keys.
pub fn key_too_deep()
    ensures { KeyTooDeep }
{}

/// Stuck: the keys of what has a value alone.
pub fn keys_of_register()
    ensures { KeysOfRegister }
{}

/// Stuck: the keys under a key where there is nothing yet.
pub fn keys_in_nothing()
    ensures { KeysInNothing }
{}

/// Stuck: the values under a key where there is nothing yet.
pub fn values_in_nothing()
    ensures { ValuesInNothing }
{}

/// Stuck: the keys below a key that has a value alone.
pub fn keys_below_register()
    ensures { KeysBelowRegister }
{}

/// Stuck: a receive from a replica that isn't there.
pub fn from_nobody()
    ensures { FromNobody }
{}

/// Stuck: a command of a replica that isn't there.
pub fn by_nobody()
    ensures { ByNobody }
{}

/// Stuck: an operation of a replica that isn't there is only missing among those received.
pub fn of_nobody()
    ensures { OfNobody }
{}

/// To take an operation that isn't offered.
pub fn take_unoffered()
    ensures { TakeUnoffered }
{}

/// To take one in version 1.
pub fn take_in_first()
    ensures { TakeInFirst }
{}

/// To take one of a replica that isn't there, whatever the version.
pub fn take_from_nobody()
    ensures { TakeFromNobody }
{}
