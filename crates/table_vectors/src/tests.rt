// Sources and outputs, joins, and reports.
mod joins;
mod records;
mod reports;
