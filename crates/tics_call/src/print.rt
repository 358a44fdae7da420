ghost use Rattle.std.specs.Prelude.{◌≡◌, ◌≤◌, OnOk, OnErr, IsErrOf};
ghost use Rattle.std.specs.List.{concat};
ghost use Rattle.edge.specs.Counts.{HasRisen};
ghost use Rattle.edge.specs.Told.{Appends, AppendsFront};

use base16::Sequence;
use edge::{Sink, SinkErr};

/// Puts lines one by one. After an error a front of them was put.
pub fn print<K: Sink>(out: &mut K, lines: &[Sequence<u8>]) -> Result<(), SinkErr>
    ensures ok { OnOk result (Appends (K.bytes out.old) (K.bytes out.new) (concat lines.now)) }
    ensures front { OnErr result (AppendsFront (K.bytes out.old) (K.bytes out.new) (concat lines.now)) }
    ensures failed { IsErrOf result SinkErr.Failed → HasRisen (K.faults out.old) (K.faults out.new) }
    ensures never_falls { K.faults out.old ≤ K.faults out.new }
{
    for line in lines {
        match out.put(line.as_slice()) {
            Ok(()) => {}
            Err(error) => return Err(error),
        }
    }
    Ok(())
}
