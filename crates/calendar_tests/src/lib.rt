// Cases of the calendar: dates and seconds by another calendar, and the clock's calls by hand.
#![tactic(auto)]

#[cfg(test)]
mod tests {
    use calendar::{Clock, DateTime, Season};
    use refusal::Refusal;
    use std::test::Fail;

    // Year from 2000, month, day, hour, minute, second.
    type Six = (u8, u8, u8, u8, u8, u8);

    // Dates with their seconds since 2000 and their weekdays: first and last moments of years and months,
    // leap days, and moments taken at random.
    const DATES: [(Six, u32, u8); 27] = [
        ((0, 1, 1, 0, 0, 0), 0, 6),
        ((0, 1, 1, 23, 59, 59), 86399, 6),
        ((0, 2, 29, 12, 0, 0), 5140800, 2),
        ((0, 3, 1, 0, 0, 0), 5184000, 3),
        ((0, 12, 31, 23, 59, 59), 31622399, 7),
        ((1, 1, 1, 0, 0, 0), 31622400, 1),
        ((1, 2, 28, 23, 59, 59), 36719999, 3),
        ((1, 3, 1, 0, 0, 0), 36720000, 4),
        ((23, 2, 28, 23, 59, 59), 730943999, 2),
        ((23, 3, 1, 0, 0, 0), 730944000, 3),
        ((23, 12, 31, 23, 59, 59), 757382399, 7),
        ((24, 1, 1, 0, 0, 0), 757382400, 1),
        ((24, 2, 29, 23, 59, 59), 762566399, 4),
        ((24, 4, 30, 6, 7, 8), 767772428, 2),
        ((24, 11, 30, 23, 59, 59), 786326399, 6),
        ((24, 12, 31, 0, 0, 0), 788918400, 2),
        ((96, 2, 29, 1, 2, 3), 3034630923, 3),
        ((99, 2, 28, 4, 5, 6), 3129249906, 6),
        ((99, 12, 31, 23, 59, 59), 3155759999, 4),
        ((65, 11, 14, 15, 23, 56), 2078753036, 6),
        ((67, 3, 11, 5, 42, 52), 2120362972, 5),
        ((3, 8, 29, 22, 43, 10), 115512190, 5),
        ((38, 6, 20, 17, 30, 23), 1213983023, 7),
        ((79, 9, 24, 21, 45, 4), 2516132704, 7),
        ((5, 5, 22, 1, 15, 10), 170039710, 7),
        ((54, 10, 20, 0, 50, 25), 1729385425, 2),
        ((78, 8, 14, 23, 42, 16), 2481061336, 7),
    ];

    // No dates.
    const UNLAWFUL: [Six; 15] = [
        (23, 2, 29, 0, 0, 0),
        (100, 1, 1, 0, 0, 0),
        (24, 0, 1, 0, 0, 0),
        (24, 13, 1, 0, 0, 0),
        (24, 1, 0, 0, 0, 0),
        (24, 1, 32, 0, 0, 0),
        (24, 2, 30, 0, 0, 0),
        (24, 4, 31, 0, 0, 0),
        (24, 6, 31, 0, 0, 0),
        (24, 9, 31, 0, 0, 0),
        (24, 11, 31, 0, 0, 0),
        (24, 12, 32, 0, 0, 0),
        (24, 1, 1, 24, 0, 0),
        (24, 1, 1, 0, 60, 0),
        (24, 1, 1, 0, 0, 60),
    ];

    // Time of day, and time of day once synchronised.
    const MINUTES: [((u8, u8, u8), (u8, u8, u8)); 8] = [
        ((12, 58, 29), (12, 58, 0)),
        ((12, 58, 30), (12, 59, 0)),
        ((12, 0, 29), (12, 0, 29)),
        ((12, 0, 30), (12, 0, 30)),
        ((12, 59, 29), (12, 59, 29)),
        ((23, 59, 30), (23, 59, 30)),
        ((0, 1, 0), (0, 1, 0)),
        ((0, 1, 59), (0, 2, 0)),
    ];

    fn date((year, month, day, hour, minute, second): Six) -> DateTime {
        DateTime {
            year,
            month,
            day,
            hour,
            minute,
            second,
        }
    }

    #[test]
    fn dates_and_seconds(rt: HostRuntime) -> Result<(), Fail> {
        for (six, seconds, weekday) in DATES {
            let mut clock = Clock::start();
            clock.set(date(six), 3)?;
            assert_eq!(rt; clock.seconds(), seconds);
            let (year, month, day, hour, minute, second) = six;
            assert_eq!(rt;
                clock.date(),
                [year, month, day, hour, minute, second, 0, weekday, 1]
            );
        }
        Ok(())
    }

    #[test]
    fn unlawful_dates(rt: HostRuntime) -> Result<(), Fail> {
        let mut clock = Clock::start();
        clock.set(date((24, 2, 29, 1, 2, 3)), 1)?;
        clock.advance(77)?;
        let stood = clock;
        for six in UNLAWFUL {
            assert!(rt; !date(six).is_lawful());
            assert_eq!(rt; clock.set(date(six), 0), Err(Refusal::Parameter));
            assert_eq!(rt; clock, stood);
        }
        clock.set(date((24, 2, 29, 1, 2, 3)), 2)?;
        assert_eq!(rt; clock.ticks(), 0);
        assert_eq!(rt; clock.season(), Season::Winter);
        Ok(())
    }

    #[test]
    fn advances(rt: HostRuntime) -> Result<(), Fail> {
        let mut clock = Clock::start();
        assert_eq!(rt; clock.date(), [0, 1, 1, 0, 0, 0, 0, 6, 0]);
        clock.advance(1000)?;
        clock.advance(4_294_967_295)?;
        assert_eq!(rt; (clock.seconds(), clock.ticks()), (16_777_219, 231));
        clock.set(date((99, 12, 31, 23, 59, 58)), 1)?;
        clock.advance(511)?;
        assert_eq!(rt; clock.date(), [99, 12, 31, 23, 59, 59, 255, 4, 1]);
        let last = clock;
        assert_eq!(rt; clock.advance(1), Err(Refusal::PastLastYear));
        assert_eq!(rt; clock.advance(4_294_967_295), Err(Refusal::PastLastYear));
        assert_eq!(rt; clock, last);
        clock.advance(0)?;
        assert_eq!(rt; clock, last);
        Ok(())
    }

    #[test]
    fn synchronises(rt: HostRuntime) -> Result<(), Fail> {
        for ((hour, minute, second), (to_hour, to_minute, to_second)) in MINUTES {
            let mut clock = Clock::start();
            clock.set(date((31, 8, 31, hour, minute, second)), 1)?;
            clock.advance(200)?;
            clock.synchronise();
            let stays = minute == 0 || minute == 59;
            let ticks = if stays { 200 } else { 0 };
            assert_eq!(rt;
                clock.date(),
                [31, 8, 31, to_hour, to_minute, to_second, ticks, 7, 1]
            );
        }
        Ok(())
    }
}
