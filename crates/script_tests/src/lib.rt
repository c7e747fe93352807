//! Tests of the script: lines that are none, what is expected there, and what a call is read as.
#![tactic(auto)]

#[cfg(test)]
mod tests {
    use calculus::rows::Row;
    use calculus::values::Value;
    use script::calls::{Call, Expected, TrialCall, Unread};
    use script::lines::read_line;
    use script::settings::{Area, Defaults, Lengths, Settings, StoreKind};
    use signs::write::Text;
    use std::alloc::Global;
    use std::test::Fail;

    // What is expected where a line is none, under these settings.
    fn lacks(heap: Global, settings: Settings, line: &[u8]) -> Result<Expected, Fail> {
        let mut after = settings;
        match read_line(heap, &mut after, line) {
            Err(Unread::Expected(what)) => Ok(what),
            _ => Err(Fail::new("the line was read")),
        }
    }

    // The settings after a line that is read.
    fn after(heap: Global, settings: Settings, line: &[u8]) -> Result<Settings, Fail> {
        let mut after = settings;
        match read_line(heap, &mut after, line) {
            Ok(_) => Ok(after),
            Err(_) => Err(Fail::new("the line was not read")),
        }
    }

    // The call of a line.
    fn call(heap: Global, line: &[u8]) -> Result<Call, Fail> {
        let mut settings = Settings::new();
        match read_line(heap, &mut settings, line) {
            Ok(Some(call)) => Ok(call),
            _ => Err(Fail::new("the line is no call")),
        }
    }

    #[test]
    fn lines_that_are_none(rt: HostRuntime) -> Result<(), Fail> {
        let cases: [(&[u8], Expected); 43] = [
            (b"chek 0 F1", Expected::Keyword),
            (b"Check 0 F1", Expected::Keyword),
            (b"check0 F1", Expected::Keyword),
            (b"\xff\xfe", Expected::Keyword),
            (b"objects #", Expected::LineEnd),
            (b"open 1", Expected::LineEnd),
            (b"run 1 2", Expected::LineEnd),
            (b"keep", Expected::Trial),
            (b"put-back x", Expected::Trial),
            (b"code", Expected::Program),
            (b"start 1", Expected::Allowance),
            (b"check", Expected::Givens),
            (b"run 4294967296", Expected::Reductions),
            (b"run -1", Expected::Reductions),
            (b"run +1", Expected::Reductions),
            (b"list 99999999999999999999", Expected::Program),
            (b"start 0 4294967296", Expected::Allowance),
            (b"compile 0x1", Expected::Givens),
            (b"compile 0 F9223372036854775808", Expected::Row),
            (b"compile 0 F-9223372036854775809", Expected::Row),
            (b"compile 0 S65536", Expected::Row),
            (b"compile 0 256/0/0", Expected::Row),
            (b"start 0 0 @4294967296", Expected::Value),
            (b"check 0 V", Expected::Row),
            (b"check 0 C1", Expected::Row),
            (b"check 0 F1 X", Expected::Row),
            (b"check 0 S-1", Expected::Row),
            (b"check 0 1/2", Expected::Row),
            (b"check 0 1/2/3/4", Expected::Row),
            (b"check 0 //", Expected::Row),
            (b"start 0 0 @", Expected::Value),
            (b"start 0 0 @-1", Expected::Value),
            (b"start 0 0 --1", Expected::Value),
            (b"start 0 0 F1", Expected::Value),
            (b"store", Expected::StoreKind),
            (b"store trial trial flat", Expected::StoreKind),
            (b"store trial trial trial sharing", Expected::StoreKind),
            (b"store flat trial", Expected::LineEnd),
            (b"lengths", Expected::AreaName),
            (b"lengths cells 1 rows 2", Expected::AreaName),
            (b"lengths cells", Expected::AreaLength),
            (b"lengths cells 4294967296", Expected::AreaLength),
            (b"lengths cells 1 frames 2 cells 1", Expected::AreaOnce),
        ];
        for (line, what) in cases {
            assert_eq!(rt; lacks(rt.alloc(), Settings::new(), line)?, what);
        }
        Ok(())
    }

    #[test]
    fn settings_first(rt: HostRuntime) -> Result<(), Fail> {
        let heap = rt.alloc();
        let called = after(heap, Settings::new(), b"objects")?;
        assert_eq!(rt; lacks(heap, called, b"store flat")?, Expected::SettingFirst);
        assert_eq!(rt;
            lacks(heap, called, b"lengths cells 1")?,
            Expected::SettingFirst
        );
        Ok(())
    }

    #[test]
    fn settings_once(rt: HostRuntime) -> Result<(), Fail> {
        let heap = rt.alloc();
        let new = Settings::new();
        let flat = after(heap, new, b"store flat")?;
        assert_eq!(rt; lacks(heap, flat, b"store flat")?, Expected::SettingOnce);
        let both = after(heap, flat, b"lengths cells 1")?;
        assert_eq!(rt;
            lacks(heap, both, b"lengths frames 1")?,
            Expected::SettingOnce
        );
        assert_eq!(rt; lacks(heap, both, b"open")?, Expected::TrialLayer);
        assert_eq!(rt; lacks(heap, both, b"keep 1")?, Expected::TrialLayer);
        assert_eq!(rt; lacks(heap, both, b"put-back 1")?, Expected::TrialLayer);
        let sharing = after(heap, new, b"store sharing")?;
        assert_eq!(rt; lacks(heap, sharing, b"open")?, Expected::TrialLayer);
        let layered = after(heap, new, b"store trial trial sharing")?;
        let opened = after(heap, layered, b"open")?;
        assert!(rt; opened.calls_begun);
        Ok(())
    }

    // A line that is none changes no setting.
    #[test]
    fn settings_stay(rt: HostRuntime) -> Result<(), Fail> {
        let heap = rt.alloc();
        let mut settings = Settings::new();
        let _ = read_line(heap, &mut settings, b"lengths cells 1 frames x");
        assert_eq!(rt; settings.length(Area::Cells), 4096);
        assert!(rt; settings.lengths.is_none());
        let _ = read_line(heap, &mut settings, b"check 0 X");
        assert!(rt; !settings.calls_begun);
        let set = after(heap, settings, b"\tlengths  slots 7 contents 0\r\n")?;
        assert_eq!(rt; set.length(Area::Slots), 7);
        assert_eq!(rt; set.length(Area::Contents), 0);
        assert_eq!(rt; set.length(Area::Methods), 4096);
        assert!(rt; !set.calls_begun);
        assert!(rt; set.store().has_trials());
        Ok(())
    }

    // What a caller chose holds wherever a script sets nothing.
    #[test]
    fn own_defaults(rt: HostRuntime) -> Result<(), Fail> {
        let heap = rt.alloc();
        let defaults = Defaults {
            store: StoreKind::Sharing,
            cells: 10,
            ..Defaults::default()
        };
        let plain = Settings {
            defaults,
            ..Settings::new()
        };
        assert!(rt; matches!(plain.store(), StoreKind::Sharing));
        assert_eq!(rt; plain.length(Area::Cells), 10);
        assert_eq!(rt; lacks(heap, plain, b"open")?, Expected::TrialLayer);
        let named = after(heap, plain, b"lengths frames 5 objects 0")?;
        assert_eq!(rt; named.length(Area::Frames), 5);
        assert_eq!(rt; named.length(Area::Objects), 0);
        assert_eq!(rt; named.length(Area::Cells), 10);
        assert_eq!(rt; named.length(Area::Slots), 4096);
        assert!(rt; matches!(named.store(), StoreKind::Sharing));
        let flat = after(heap, named, b"store flat")?;
        assert!(rt; matches!(flat.store(), StoreKind::Flat));
        assert_eq!(rt; flat.length(Area::Cells), 10);
        assert_eq!(rt; flat.length(Area::Frames), 5);
        assert_eq!(rt; lacks(heap, flat, b"store flat")?, Expected::SettingOnce);
        let layered = Settings {
            defaults: Defaults {
                store: StoreKind::TrialSharing,
                ..defaults
            },
            ..plain
        };
        let opened = after(heap, layered, b"open")?;
        assert!(rt; opened.calls_begun);
        assert!(rt; matches!(opened.store(), StoreKind::TrialSharing));
        assert_eq!(rt; opened.length(Area::Cells), 10);
        let bare = after(heap, layered, b"store flat")?;
        assert_eq!(rt; lacks(heap, bare, b"open")?, Expected::TrialLayer);
        Ok(())
    }

    // Lengths and a store that a caller counts as set are as those that a line set.
    #[test]
    fn own_settings(rt: HostRuntime) -> Result<(), Fail> {
        let heap = rt.alloc();
        let lengths = Lengths::none().with(Area::Cells, 3).with(Area::Slots, 0);
        assert!(rt; matches!(lengths.of(Area::Cells), Some(3)));
        assert!(rt; matches!(lengths.of(Area::Slots), Some(0)));
        assert!(rt; lengths.of(Area::Frames).is_none());
        let own = Settings {
            store: Some(StoreKind::Flat),
            lengths: Some(lengths),
            ..Settings::new()
        };
        assert_eq!(rt; own.length(Area::Cells), 3);
        assert_eq!(rt; own.length(Area::Slots), 0);
        assert_eq!(rt; own.length(Area::Frames), 4096);
        assert_eq!(rt;
            lacks(heap, own, b"lengths frames 5")?,
            Expected::SettingOnce
        );
        assert_eq!(rt; lacks(heap, own, b"store sharing")?, Expected::SettingOnce);
        assert_eq!(rt; lacks(heap, own, b"open")?, Expected::TrialLayer);
        Ok(())
    }

    #[test]
    fn skipped(rt: HostRuntime) {
        let heap = rt.alloc();
        let mut settings = Settings::new();
        assert!(rt; matches!(read_line(heap, &mut settings, b""), Ok(None)));
        assert!(rt; matches!(read_line(heap, &mut settings, b" \t \r\n"), Ok(None)));
        assert!(rt; matches!(read_line(heap, &mut settings, b"#check"), Ok(None)));
        assert!(rt; matches!(read_line(heap, &mut settings, b"  # \xff\n"), Ok(None)));
        assert!(rt; !settings.calls_begun);
    }

    #[test]
    fn calls(rt: HostRuntime) -> Result<(), Fail> {
        let heap = rt.alloc();
        match call(heap, b"check 03 V1 S0065535 9/8/-7\n")? {
            Call::Check { givens, rows } => {
                assert_eq!(rt; givens, 3);
                assert!(rt; rows.len() == 3);
                assert_eq!(rt; Text(rows[0]).to_string(heap)?.as_str(), "V1");
                assert_eq!(rt; Text(rows[1]).to_string(heap)?.as_str(), "S65535");
                assert_eq!(rt; Text(rows[2]).to_string(heap)?.as_str(), "9/8/-7");
            }
            _ => return Err(Fail::new("another call")),
        }
        match call(heap, b"start 1 2 -0 @3")? {
            Call::Start {
                program,
                allowance,
                values,
            } => {
                assert_eq!(rt; program, 1);
                assert_eq!(rt; allowance, 2);
                assert!(rt; values.len() == 2);
                assert_eq!(rt; Text(values[0]).to_string(heap)?.as_str(), "0");
                assert_eq!(rt; Text(values[1]).to_string(heap)?.as_str(), "@3");
                Ok(())
            }
            _ => Err(Fail::new("another call")),
        }
    }

    #[test]
    fn short_calls(rt: HostRuntime) -> Result<(), Fail> {
        let heap = rt.alloc();
        assert!(rt; matches!(call(heap, b"list 5")?, Call::List { program: 5 }));
        assert!(rt; matches!(call(heap, b"code 6")?, Call::Code { program: 6 }));
        assert!(rt;
            matches!(
                call(heap, b"run 4294967295")?,
                Call::Run {
                    reductions: 4_294_967_295
                }
            )
        );
        assert!(rt; matches!(call(heap, b"open")?, Call::Trial(TrialCall::Open)));
        assert!(rt;
            matches!(
                call(heap, b"keep 1")?,
                Call::Trial(TrialCall::Keep { trial: 1 })
            )
        );
        assert!(rt;
            matches!(
                call(heap, b"put-back 0")?,
                Call::Trial(TrialCall::PutBack { trial: 0 })
            )
        );
        assert!(rt; matches!(call(heap, b"objects")?, Call::Objects));
        Ok(())
    }

    #[test]
    fn texts(rt: HostRuntime) -> Result<(), Fail> {
        let heap = rt.alloc();
        let cases: [(&[u8], &str); 4] = [
            (b"run 1 2", "expected nothing more on this line"),
            (
                b"run",
                "expected a number of reductions, from 0 to 4294967295",
            ),
            (
                b"lengths",
                "expected an area's name: contents, operations, methods, cells, frames, objects or slots",
            ),
            (
                b"store",
                "expected flat, sharing, trial flat, trial sharing or trial trial sharing",
            ),
        ];
        for (line, text) in cases {
            let what = lacks(heap, Settings::new(), line)?;
            assert_eq!(rt; format!(in heap; "expected {what}")?.as_str(), text);
        }
        Ok(())
    }
}
