//! Rows of the client. Each computes with the definitions opened.
#![tactic(auto, unfolding(cluster_rules::specs::Worker::flying, cluster_rules::specs::Worker::awaited, cluster_rules::specs::Worker::used, cluster_rules::specs::Worker::wstate, cluster_rules::specs::Worker::running_count, cluster_rules::specs::Worker::would_start, cluster_rules::specs::Worker::fetchable, cluster_rules::specs::Worker::ask_items, cluster_rules::specs::Worker::would_ask, cluster_rules::specs::Worker::pairs, cluster_rules::specs::Client::client_fetchable, cluster_rules::specs::Client::client_would_ask, cluster_rules::specs::Client::client_pairs, cluster_rules::specs::Client::client_wants, cluster_rules::specs::Client::client_releases, cluster_rules::specs::Client::hear, cluster_rules::specs::Client::client_ask, cluster_rules::specs::Client::client_gathered, cluster_rules::specs::Client::client_step, cluster_rules::specs::Client::client_takes))]

pub mod events;
pub mod refused;
