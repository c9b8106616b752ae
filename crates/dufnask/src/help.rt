//! What the program can do, in words.

/// The text of `dufnask help`.
pub const TEXT: &str = "\
dufnask: what the curves of an hour come to

  dufnask merit [FILE]   reads an hour from FILE, or from standard input, and prints its merit order:
                         bids, totals by price, the price at which it balances, and the matches there
  dufnask bench          measures how long curves take to answer
  dufnask help           prints this text (also -h and --help)

An hour is a text of one line for its limits and then one line for each bid, at most 4096:

  limits PMIN PMAX
  NAME: CURVE
  CURVE

Prices are in kuruş per MWh, quantities in lots of 0.1 MWh: above 0 bought, below 0 sold.
A NAME is one word; a bid without one is called by its line. A CURVE is one of

  PART
  PART plus PART
  PART cap BOUGHT SOLD
  PART plus PART cap BOUGHT SOLD

and a PART is one of

  linear PRICE:QUANTITY ..    the straight line from level to level
  stepped PRICE:QUANTITY ..   each level's quantity from its price on
  flat QUANTITY               one quantity at all prices

Words stand apart by spaces. Blank lines, and lines that begin with #, are passed over.
A line that cannot be read ends the program with status 1. A curve that is refused is reported.";
