//! What holds of every run, and of every view.
ghost use Rattle.speaker_laws.specs.Answered.{AllAnswerWhatStands};
ghost use Rattle.speaker_laws.specs.Heard.{PeersHearTheirRoutes};
ghost use Rattle.speaker_laws.specs.LaneClauses.{LanesAreRight};
ghost use Rattle.speaker_laws.specs.Meant.{AllSendWhatIsMeant};
ghost use Rattle.speaker_laws.specs.Right.{RunsAreRight};
ghost use Rattle.speaker_laws.specs.Told.{LinesTellWhatIsAnnounced};

/// After any lines that are taken, the addresses with an announce line and no later withdraw line
/// are exactly those that the node announces.
pub fn lines_tell_what_is_announced()
    ensures { LinesTellWhatIsAnnounced }
{}

/// At each line just the frames are sent that are meant of its event: of a received frame its
/// answer, of others the unsolicited frames of what is announced with it.
pub fn all_send_what_is_meant()
    ensures { AllSendWhatIsMeant }
{}

/// A frame is answered only for an address that has an announce line and no later withdraw line.
pub fn answers_are_for_what_stands()
    ensures { AllAnswerWhatStands }
{}

/// After any lines that are taken, with a next hop, what a peer of the configuration in force was
/// told since it came, or since its AS numbers last changed, makes its routes of the empty table.
pub fn peers_hear_their_routes()
    ensures { PeersHearTheirRoutes }
{}

/// Each run that the words begin is that of what they say, and just what is so is told and written
/// of its lines.
pub fn runs_are_right(words: &[String])
    ensures { RunsAreRight words.now }
{}

/// And so is each run over two lanes.
pub fn lanes_are_right(words: &[String])
    ensures { LanesAreRight words.now }
{}
