//! A script printed, as one writes it by hand.
use crate::print_script;
use lvs_types::{Addr, Bytes, Command, Listed, Round, Script, ScriptLine, Setting, Shown};
use std::alloc::Global;
use std::test::Fail;

/// A list of lines.
fn listed(alloc: Global, lines: [ScriptLine; 4]) -> Result<Listed<ScriptLine>, Fail> {
    Ok(Listed::from_vec(Vec::from_array(alloc, lines)?))
}

#[test]
fn prints_each_kind_of_line(rt: HostRuntime) -> Result<(), Fail> {
    let alloc = rt.alloc();
    let packet = Bytes::from_vec(Vec::from_array(alloc, [0x45, 0x00, 0xAB])?);
    let first = listed(
        alloc,
        [
            ScriptLine::Edit(Command::Timeouts(900, 0, 300)),
            ScriptLine::Set(Setting::SyncThreshold(3, 50)),
            ScriptLine::Incoming {
                mark: 7,
                bytes: packet,
            },
            ScriptLine::Show(Shown::List),
        ],
    )?;
    let rounds = Vec::from_array(
        alloc,
        [Round {
            moment: 5,
            lines: first,
        }],
    )?;
    let script = Script {
        local: Addr {
            number: 0x0A00_00FE,
        },
        rounds: Listed::from_vec(rounds),
    };
    assert_eq!(rt;
        print_script(alloc, &script)?.as_slice(),
        b"local 10.0.0.254\n# round 0 at 5\nat 5\nipvs --set 900 0 300\nsysctl sync_threshold 3 50\nin 7 4500ab\nlist\n".as_slice()
    );
    Ok(())
}
