// Known answers for SHA-256, HMAC-SHA-256 and the certificates, as tests only.
#![tactic(auto)]

#[cfg(test)]
mod digests;
#[cfg(test)]
mod kinds;
#[cfg(test)]
mod marks;
#[cfg(test)]
mod read;
#[cfg(test)]
mod refused;
#[cfg(test)]
mod rows;
