// Laws over the definitions, each the contract of a function with nothing to do.
ghost use Rattle.std.specs.Prelude.{◌≡◌, [], ◌∷◌, ◌++◌, codes, decimal, replicate, true, false};
ghost use Rattle.kit_serve.specs.Kit.Kits.{IsServed, lines_said, is_over, messages};
ghost use Rattle.kit_serve.specs.Kit.Described.{described_lines, AreAnswered};
ghost use Rattle.kit_serve.specs.Kit.Rows.{settings, asks_directory, check_session, export_session, name_session, invented_session, early_session, hasty_session};
ghost use Rattle.kit_serve.specs.Kit.Rows.{init_session, set_session, again_session, transfer_session, value_session, request_session, error_session, bare_session};
ghost use Rattle.kit_serve.specs.Kit.Rows.{description, described_session, untold_session, unknown_session, garbled_session, late_session, kept_session, awaiting_session, intruding_session, astray_session};
ghost use Rattle.kit_serve.specs.Kit.Descriptions.{untold};

/// What a kit with the one setting `directory` says in worked sessions.
pub fn worked_lines()
    ensures check { lines_said settings check_session ≡ codes "EXTENSIONS " ∷ asks_directory ∷ codes "PREPARE-SUCCESS" ∷ codes "CHECKPRESENT-FAILURE WORM--a" ∷ [] }
    ensures init { lines_said settings init_session ≡ asks_directory ∷ codes "INITREMOTE-SUCCESS" ∷ codes "CHECKPRESENT-UNKNOWN WORM--a not prepared" ∷ [] }
    ensures set { lines_said settings set_session ≡
        asks_directory ∷ codes "SETCONFIG directory /d" ∷ codes "INITREMOTE-SUCCESS" ∷ asks_directory ∷ codes "PREPARE-SUCCESS" ∷ codes "CHECKPRESENT-FAILURE WORM--a" ∷ [] }
    ensures again { lines_said settings again_session ≡
        asks_directory ∷ codes "PREPARE-SUCCESS" ∷ asks_directory ∷ codes "PREPARE-FAILURE no directory" ∷ codes "CHECKPRESENT-SUCCESS WORM--a" ∷ [] }
    ensures transfer { lines_said settings transfer_session ≡ codes "EXTENSIONS " ∷ codes "TRANSFER-FAILURE STORE WORM--a not prepared" ∷ [] }
    ensures value { lines_said settings value_session ≡ codes "ERROR unexpected message" ∷ [] }
    ensures request { lines_said settings request_session ≡ asks_directory ∷ codes "ERROR unexpected message" ∷ [] }
    ensures error { lines_said settings error_session ≡ asks_directory ∷ [] }
    ensures exports { lines_said settings export_session ≡ replicate 5 (codes "UNSUPPORTED-REQUEST") }
    ensures name { lines_said settings name_session ≡ asks_directory ∷ codes "ERROR unexpected message" ∷ [] }
    ensures bare { lines_said [] bare_session ≡ codes "PREPARE-SUCCESS" ∷ codes "CHECKPRESENT-UNKNOWN WORM--a no disk" ∷ [] }
{}

/// Which calls its remote must have had in them, and which it may not.
pub fn worked_calls()
    ensures check { IsServed settings check_session }
    ensures invented { IsServed settings invented_session → ⊥ }
    ensures early { IsServed settings early_session → ⊥ }
    ensures hasty { IsServed settings hasty_session → ⊥ }
    ensures init { IsServed settings init_session }
    ensures set { IsServed settings set_session }
    ensures again { IsServed settings again_session }
    ensures transfer { IsServed settings transfer_session }
    ensures value { IsServed settings value_session }
    ensures exports { IsServed settings export_session }
    ensures bare { IsServed [] bare_session }
{}

/// After which of them the kit is over.
pub fn worked_ends()
    ensures check { is_over settings (messages check_session) ≡ false }
    ensures transfer { is_over settings (messages transfer_session) ≡ false }
    ensures value { is_over settings (messages value_session) ≡ true }
    ensures request { is_over settings (messages request_session) ≡ true }
    ensures exports { is_over settings (messages export_session) ≡ false }
    ensures name { is_over settings (messages name_session) ≡ true }
    ensures error { is_over settings (messages error_session) ≡ true }
{}

/// What is said where the remote also answers requests about itself.
pub fn worked_descriptions()
    ensures said { described_lines settings described_session ≡ codes "CONFIG directory a folder" ∷ codes "CONFIGEND" ∷ (codes "COST " ++ decimal 100)
        ∷ asks_directory ∷ codes "PREPARE-SUCCESS" ∷ codes "AVAILABILITY LOCAL" ∷ codes "INFOFIELD folder" ∷ codes "INFOVALUE d"
        ∷ codes "INFOEND" ∷ codes "UNSUPPORTED-REQUEST" ∷ codes "UNSUPPORTED-REQUEST" ∷ codes "CHECKPRESENT-FAILURE WORM--a" ∷ [] }
    ensures untold { described_lines settings untold_session ≡ codes "UNSUPPORTED-REQUEST" ∷ codes "UNSUPPORTED-REQUEST"
        ∷ codes "UNSUPPORTED-REQUEST" ∷ codes "UNSUPPORTED-REQUEST" ∷ codes "WHEREIS-FAILURE" ∷ [] }
    ensures unknown { described_lines settings unknown_session ≡ codes "UNSUPPORTED-REQUEST" ∷ asks_directory ∷ codes "PREPARE-SUCCESS" ∷ codes "UNSUPPORTED-REQUEST"
        ∷ codes "UNSUPPORTED-REQUEST" ∷ codes "UNSUPPORTED-REQUEST" ∷ codes "CHECKPRESENT-FAILURE WORM--a" ∷ [] }
    ensures awaiting { described_lines settings awaiting_session ≡ asks_directory ∷ codes "ERROR unexpected message" ∷ [] }
{}

/// Which lines a kit may answer aside, and which it has to.
pub fn worked_answers()
    ensures described { AreAnswered (λ about. about ≡ description) settings described_session }
    ensures awaiting { AreAnswered (λ about. about ≡ description) settings awaiting_session }
    ensures untold { AreAnswered (λ about. about ≡ description) settings untold_session → ⊥ }
    ensures intruding { AreAnswered (λ about. about ≡ description) settings intruding_session → ⊥ }
    ensures astray { AreAnswered (λ about. about ≡ description) settings astray_session → ⊥ }
    ensures unknown { AreAnswered (λ about. about ≡ untold) settings unknown_session }
    ensures refused { (AreAnswered (λ about. about ≡ untold) settings garbled_session → ⊥) × (AreAnswered (λ about. about ≡ untold) settings late_session → ⊥)
        × (AreAnswered (λ about. about ≡ untold) settings kept_session → ⊥) }
{}
