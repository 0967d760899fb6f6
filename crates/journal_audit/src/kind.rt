ghost use Rattle.std.specs.Prelude.{◌≡◌};
ghost use Rattle.journal_model.specs.Legality.{kind_of};
ghost use Rattle.journal_scan.specs.Shown.{what_shown};

use journal_look::WhatRef;

/// The number of an entry's kind, from 1.
pub(super) fn kind_of(what: WhatRef<'_>) -> u8
    ensures { result ≡ kind_of (what_shown what.entry) }
{
    match what {
        WhatRef::Claim { .. } => 1,
        WhatRef::Start { .. } => 2,
        WhatRef::NoStart { .. } => 3,
        WhatRef::Ask { .. } => 4,
        WhatRef::Put { .. } => 5,
        WhatRef::Sent { .. } => 6,
        WhatRef::Mute { .. } => 7,
        WhatRef::Got { .. } => 8,
        WhatRef::End { .. } => 9,
        WhatRef::Verdict { .. } => 10,
        WhatRef::Lost { .. } => 11,
        WhatRef::Answer { .. } => 12,
        WhatRef::Note { .. } => 13,
        WhatRef::Lead { .. } => 14,
        WhatRef::Again { .. } => 15,
    }
}
