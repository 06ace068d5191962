//! The command of a row, by its verb: its cells are tested in their order.
ghost use Rattle.std.specs.Prelude.{◌≡◌, length};
ghost use Rattle.bp_script.specs.Commands.{
  book_in,
  cancel_in,
  reforecast_in,
  reprice_in,
  resize_in,
  group_in,
  command_in,
};

use crate::cells::{night_in, nights_in, number_within, stay_in};
use crate::verb::Verb;
use bp_hotelfile::{DateError, Hotel};
use bp_stayfile::cells::{date_in, span_in};
use bp_stayfile::tables::Row;
use bp_stayfile::{Codes, TableRefusal};
use bp_types::Command;
use bp_types::limits::{
    MOST_AMOUNT, MOST_ENTRIES, MOST_FORECAST, MOST_GROUP_ROOMS, MOST_RATE, MOST_ROOMS,
};

/// A Book of the stay that the item names.
fn book_in(codes: &Codes, line: u64, item: &str) -> Result<Command, TableRefusal>
    ensures { result ≡ book_in codes.now line item.now }
{
    let stay = stay_in(codes, line, item)?;
    Ok(Command::Book { stay })
}

/// A Cancel of the session's booking call of that number.
fn cancel_in(line: u64, item: &str) -> Result<Command, TableRefusal>
    ensures { result ≡ cancel_in line item.now }
{
    let nth = number_within(1, MOST_ENTRIES, line, item)?;
    Ok(Command::Cancel { nth })
}

/// A Reforecast of the stay that the item names: the amount is its new forecast, in units.
fn reforecast_in(
    codes: &Codes,
    line: u64,
    item: &str,
    amount: &str,
) -> Result<Command, TableRefusal>
    ensures { result ≡ reforecast_in codes.now line item.now amount.now }
{
    let stay = stay_in(codes, line, item)?;
    let count = number_within(0, MOST_FORECAST, line, amount)?;
    Ok(Command::Reforecast { stay, count })
}

/// A Reprice of the stay that the item names: the amount is its new rate, in minor units of money.
fn reprice_in(codes: &Codes, line: u64, item: &str, amount: &str) -> Result<Command, TableRefusal>
    ensures { result ≡ reprice_in codes.now line item.now amount.now }
{
    let stay = stay_in(codes, line, item)?;
    let rate = number_within(1, MOST_RATE, line, amount)?;
    Ok(Command::Reprice { stay, rate })
}

/// A Resize of the night that the item dates, to so many whole rooms.
fn resize_in(line: u64, date: Result<u32, DateError>, rooms: &str) -> Result<Command, TableRefusal>
    ensures { result ≡ resize_in line date rooms.now }
{
    date_in(line, date)?;
    let rooms = number_within(0, MOST_ROOMS, line, rooms)?;
    let night = night_in(line, date)?;
    Ok(Command::Resize { night, rooms })
}

/// A Group of so many rooms on each of so many nights from the date of the item, of a hotel of `total` nights, for an
/// amount in minor units of money.
fn group_in(
    line: u64,
    total: u32,
    arrival: Result<u32, DateError>,
    nights: &str,
    rooms: &str,
    amount: &str,
) -> Result<Command, TableRefusal>
    ensures { result ≡ group_in line total arrival nights.now rooms.now amount.now }
{
    date_in(line, arrival)?;
    let nights = nights_in(line, nights)?;
    let rooms = number_within(1, MOST_GROUP_ROOMS, line, rooms)?;
    let amount = number_within(0, MOST_AMOUNT, line, amount)?;
    let span = span_in(line, total, arrival, nights)?;
    Ok(Command::Group {
        span,
        rooms,
        amount,
    })
}

/// The command of a row with a verb. The cells that the verb does not use are not read.
pub(crate) fn command_in(
    hotel: &Hotel,
    codes: &Codes,
    row: &Row<'_>,
    verb: Verb,
) -> Result<Command, TableRefusal>
    requires { length row.now.fields ≡ 6 }
    ensures { result ≡ command_in hotel.now codes.now row.now.line row.now.fields verb }
{
    let line = row.line();
    let item = row.field(2);
    let amount = row.field(5);
    match verb {
        Verb::Book => book_in(codes, line, item),
        Verb::Cancel => cancel_in(line, item),
        Verb::Reforecast => reforecast_in(codes, line, item, amount),
        Verb::Reprice => reprice_in(codes, line, item, amount),
        Verb::Resize => resize_in(line, hotel.night_of(item), row.field(4)),
        Verb::Group => group_in(
            line,
            hotel.nights(),
            hotel.night_of(item),
            row.field(3),
            row.field(4),
            amount,
        ),
    }
}
