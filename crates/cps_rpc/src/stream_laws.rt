//! What holds of all streams.
ghost use Rattle.cps_rpc.specs.StreamLaws.{AnyPieces, MessageStays, OneReading, OneSplitting, SplittingGoesOn};

/// Bytes begin with one message at most.
pub fn one_reading()
    ensures { OneReading }
{}

/// Bytes that begin with a message do so whatever follows.
pub fn a_message_stays()
    ensures { MessageStays }
{}

/// Bytes are split into messages in one way.
pub fn one_splitting()
    ensures { OneSplitting }
{}

/// More bytes are split behind what the others left.
pub fn a_splitting_goes_on()
    ensures { SplittingGoesOn }
{}

/// Bytes hold the same messages wherever they are cut into pieces.
pub fn any_pieces()
    ensures { AnyPieces }
{}
