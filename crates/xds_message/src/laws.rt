// Laws of the messages. Each is a function that does nothing, whose clause is the law.
ghost use Rattle.serde_json.specs.Data.{Data};
ghost use Rattle.xds_message.specs.Messages.{Request, Response};
ghost use Rattle.xds_message.specs.DeltaMessages.{DeltaRequest, DeltaResponse};
ghost use Rattle.xds_message.specs.Laws.{SpellsOneRequest, SpellsOneResponse, IsSpelledByItsObject, IsRequestSpelledByItsObject};
ghost use Rattle.xds_message.specs.Laws.{SpellsOneDeltaRequest, SpellsOneDeltaResponse, IsDeltaRequestSpelledByItsObject, IsDeltaResponseSpelledByItsObject};

/// A value spells one request at most.
pub fn a_value_spells_one_request()
    ensures { (d : Data) → SpellsOneRequest d }
{}

/// A value spells one response at most.
pub fn a_value_spells_one_response()
    ensures { (d : Data) → SpellsOneResponse d }
{}

/// The object that is written for a response spells it.
pub fn a_response_is_spelled_by_its_object()
    ensures { (m : Response) → IsSpelledByItsObject m }
{}

/// The object of a request spells it.
pub fn a_request_is_spelled_by_its_object()
    ensures { (m : Request) → IsRequestSpelledByItsObject m }
{}

/// A value spells one delta request at most.
pub fn a_value_spells_one_delta_request()
    ensures { (d : Data) → SpellsOneDeltaRequest d }
{}

/// A value spells one delta response at most.
pub fn a_value_spells_one_delta_response()
    ensures { (d : Data) → SpellsOneDeltaResponse d }
{}

/// The object of a delta request spells it.
pub fn a_delta_request_is_spelled_by_its_object()
    ensures { (m : DeltaRequest) → IsDeltaRequestSpelledByItsObject m }
{}

/// The object that is written for a delta response spells it.
pub fn a_delta_response_is_spelled_by_its_object()
    ensures { (m : DeltaResponse) → IsDeltaResponseSpelledByItsObject m }
{}
