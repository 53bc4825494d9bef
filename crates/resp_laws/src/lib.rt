//! Laws of the definitions that the readers of streams meet: each function is a law, and does
//! nothing.
#![tactic(auto)]

ghost use Rattle.std.specs.Prelude.{◌<◌, length};
ghost use Rattle.resp_laws.specs.Fronts.{IsWellFormed, RequestsInOrder, ValuesInOrder};
ghost use Rattle.resp_laws.specs.Pieces.{RequestsJoin, ValuesJoin, OnlyRequests, OnlyValues};
ghost use Rattle.resp_laws.specs.Pieces.{RequestsGrow, ValuesGrow};
ghost use Rattle.resp_laws.specs.Progress.{BeginsRead, FeedsRead, AnswersRead, EmptiesRead};
ghost use Rattle.resp_laws.specs.Progress.{WaitsRead, StopsRead, HoldsRead, WholeValues};
ghost use Rattle.resp_laws.specs.Progress.{WholeRequests};
ghost use Rattle.resp_laws.specs.Streams.{Steady, FirstFault, Unfinished, WrittenRequests};
ghost use Rattle.resp_laws.specs.Streams.{NoneBeginsAnother};
ghost use Rattle.resp_laws.specs.Values.{WrittenValues};
ghost use Rattle.resp_stream.specs.Request.{request_begun, request_at};
ghost use Rattle.resp_stream.specs.Value.{value_in, value_at};

/// What was read of a stream is read the same, whatever is fed after it; and so is a fault: with
/// the limit on the whole left aside, and under it.
pub fn law_later_bytes_change_no_request()
    ensures begun { Steady request_begun }
    ensures under_the_limit { Steady request_at }
{}

/// The same of values.
pub fn law_later_bytes_change_no_value()
    ensures begun { Steady (value_in 8) }
    ensures under_the_limit { Steady value_at }
{}

/// However a stream is cut in two, the requests of the pieces are those of the whole, where the
/// first piece has no fault.
pub fn law_pieces_give_the_requests_of_the_whole()
    ensures { RequestsJoin }
{}

/// The same of values.
pub fn law_pieces_give_the_values_of_the_whole()
    ensures { ValuesJoin }
{}

/// The requests and the values of a stream are the first of those that it has with more bytes.
pub fn law_later_bytes_only_add()
    ensures requests { RequestsGrow }
    ensures values { ValuesGrow }
{}

/// Whatever is fed and asked, a reader of requests answers in turn what the bytes hold, and nothing
/// else.
pub fn law_only_requests_are_answered()
    ensures { OnlyRequests }
{}

/// The same of a reader of values.
pub fn law_only_values_are_answered()
    ensures { OnlyValues }
{}

/// No whole value's bytes are a proper prefix of another's.
pub fn law_no_value_begins_another()
    ensures { NoneBeginsAnother }
{}

/// Where more bytes are needed, some bytes complete a value or request.
pub fn law_what_is_unfinished_can_be_finished()
    ensures requests { Unfinished request_begun }
    ensures values { Unfinished (value_in 8) }
{}

/// A fault is at the first byte that no later bytes can mend.
pub fn law_a_fault_is_the_first_byte_past_mending()
    ensures requests { FirstFault request_begun }
    ensures values { FirstFault (value_in 8) }
{}

/// A request that passes no limit is read as the words that were written, whatever follows it.
pub fn law_a_written_request_is_read()
    ensures { WrittenRequests }
{}

/// A value that passes no limit is read as what its spelling carries, whatever follows it.
pub fn law_a_written_value_is_read()
    ensures { WrittenValues }
{}

/// The first bytes of written requests hold the first of these requests, and nothing else.
pub fn law_written_requests_are_read_in_order()
    ensures { RequestsInOrder (λ words. 0 < length words) }
{}

/// The same of values: each is read as what its spelling carries.
pub fn law_written_values_are_read_in_order()
    ensures { ValuesInOrder IsWellFormed }
{}

/// However it is fed and asked, a reader of values has what the bytes so far hold: what it answered
/// and what its stream still gives.
pub fn law_a_reader_goes_on_where_it_stands()
    ensures begins { BeginsRead }
    ensures feeds { FeedsRead }
    ensures answers { AnswersRead }
    ensures empties { EmptiesRead }
    ensures holds { HoldsRead }
    ensures waits { WaitsRead }
    ensures stops { StopsRead }
{}

/// A reader whose bytes begin with a whole value or request answers it, or that memory ran out.
pub fn law_what_is_whole_is_answered()
    ensures values { WholeValues }
    ensures requests { WholeRequests }
{}
