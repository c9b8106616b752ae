//! What the program can do, in words.

/// The text of `dufnask help`.
pub const TEXT: &str = "\
dufnask: the days of a power market, and what the curves of an hour come to

  dufnask run [FILE]     reads a call script from FILE, or from standard input, makes its calls on a day,
                         and prints an answer to each and a report on the day at the end
  dufnask                is dufnask run on standard input
  dufnask merit [FILE]   reads an hour from FILE, or from standard input, and prints its merit order:
                         bids, totals by price, the price at which it balances, and the matches there
  dufnask bench          measures how long curves take to answer, and calls at full tables
  dufnask help           prints this text (also -h and --help)

A call script is a text of one call to a line:

  open PMIN PMAX [tables H B F [record M K S]]
  enter hourly NUMBER PARTICIPANT HOUR CURVE
  enter block NUMBER PARTICIPANT PRICE FIRST HOURS PARENT Q ..
  enter flexible NUMBER PARTICIPANT PRICE START LENGTH DURATION Q ..
  withdraw hourly NUMBER, withdraw block NUMBER, withdraw flexible NUMBER
  close

It may also have prices, matches, marks, starts, propose and lines, which are read and not done yet.
PARENT is a number, or - for none. docs/CALL-SCRIPT.md has the whole format.

An hour is a text of one line for its limits and then one line for each bid, at most 4096:

  limits PMIN PMAX
  NAME: CURVE
  CURVE

Prices are in kuruş per MWh, quantities in lots of 0.1 MWh: above 0 bought, below 0 sold.
A NAME is one word; a bid without one is called by its line. A CURVE is one of

  PART
  PART plus PART
  PART cap BOUGHT SOLD
  PART plus PART cap BOUGHT SOLD

and a PART is one of

  linear PRICE:QUANTITY ..    the straight line from level to level
  stepped PRICE:QUANTITY ..   each level's quantity from its price on
  flat QUANTITY               one quantity at all prices

Words stand apart by spaces. Blank lines, and lines that begin with #, are passed over.
A line that cannot be read ends the program with status 1. A call or a curve that is refused is reported.";
