ghost use Rattle.std.specs.Prelude.{◌≡◌};
ghost use Rattle.pads_selftest.specs.Description.{description as description_text};

/// The text of the description of the records that are made.
pub fn description() -> &'static [u8]
    ensures text { result.now ≡ description_text }
{
    b"Pstruct event_t { Pstring(:'|':) state; '|'; Puint32 tstamp; };
Parray events_t { event_t[] : Psep('|') && Pterm(Peor); };
Precord Pstruct order_t { Puint32 num; '|'; Popt Puint32 tn; '|'; events_t events; };
"
}
